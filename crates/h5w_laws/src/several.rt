//! Several datasets of one file: what the check for their names finds.

ghost use Rattle.h5w_laws.specs.Several.{AllRanges, EachValid, FindsAll, LinkOrder, OneName, OneVerdictOfAll, RangesFit, SameLinks};

/// For one name the check for names answers what the check of that name does.
pub fn one_name()
    ensures { OneName }
{}

/// Each image is valid for names, with one summary, or has one first finding, and never both.
pub fn one_verdict_of_all()
    ensures { OneVerdictOfAll }
{}

/// No two neighbours by place overlap exactly where, of each two ranges, the first ends before the other begins.
pub fn ranges_fit()
    ensures { RangesFit }
{}

/// The check for names answers a summary exactly where no kind of finding applies to the file, and the file has
/// that.
pub fn finds_all()
    ensures { FindsAll }
{}

/// What is found at the links of the first names comes before what is found at later names and datasets.
pub fn link_order()
    ensures { LinkOrder }
{}

/// The check finds all links, to different headers, exactly where all are found and no two are the same.
pub fn same_links()
    ensures { SameLinks }
{}

/// A file that is valid for names is valid for each of them.
pub fn each_valid()
    ensures { EachValid }
{}

/// The ranges of a file that is valid for names are apart, and with the lost bytes make it.
pub fn all_ranges()
    ensures { AllRanges }
{}
