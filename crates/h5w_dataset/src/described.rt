//! What the messages of a dataset's header say.
ghost use Rattle.std.specs.Prelude.{◌≡◌, ◌==◌, ℕ, List, find, option_copied, option_map, IfOk};
ghost use Rattle.std.specs.Option.{ForSome};
ghost use Rattle.h5w_model.specs.Checked.{viewed};
ghost use Rattle.h5w_model.specs.Datasets as model;
ghost use Rattle.h5w_model.specs.Messages.{IsIntType};
ghost use Rattle.std.specs.List.{list_any};
ghost use Rattle.h5w_types.specs.Fields.{int_type_of};
ghost use Rattle.h5w_layout.specs.Layouts.{fill_of};
ghost use Rattle.h5w_model.specs.Datasets.{described, first_of, body_of, is_shared, dataspace_of, or_refuse};
ghost use Rattle.h5w_dataset.specs.Founds.{founds};
ghost use Rattle.h5w_dataset.specs.Described.{described_of, decoded, viewed_bytes};

use crate::dataset::Dataset;
use crate::found::FoundMessage;
use h5w_layout::{Fill, Layout};
use h5w_model::Unsupported;
use h5w_ohdr::kind::{DATASPACE, DATATYPE, FILL, FILTERS, LAYOUT};
use h5w_types::{IntType, Shape};

/// The flag of a message whose data stand elsewhere.
const SHARED: u8 = 2;

/// The first message of a type.
pub fn first(found: &[FoundMessage], kind: u8) -> Option<&FoundMessage>
    ensures { option_copied result ≡ find (λ m. m.kind == kind) found.now }
{
    found.iter().find(|m| m.kind == kind)
}

/// Whether the data of the first message of a type stand elsewhere.
#[tactic(auto, using(crate::proofs::DescribedLemmas::first_found))]
fn is_shared(found: &[FoundMessage], kind: u8) -> bool
    ensures { result ≡ is_shared (first_of kind (founds found.now)) }
{
    match first(found, kind) {
        Some(m) => m.flags & SHARED != 0,
        None => false,
    }
}

/// The data of the first message of a type.
#[tactic(auto, using(crate::proofs::DescribedLemmas::first_found))]
fn body(found: &[FoundMessage], kind: u8) -> Option<&[u8]>
    ensures { option_map {U = List ℕ} (λ b. b.now) result ≡ body_of kind (founds found.now) }
{
    match first(found, kind) {
        Some(m) => Some(m.body.as_slice()),
        None => None,
    }
}

/// The data of the first dataspace message, which stands in chunk 0.
#[tactic(auto, using(crate::proofs::DescribedLemmas::first_found))]
fn dataspace(found: &[FoundMessage]) -> Result<&[u8], Unsupported>
    ensures { viewed_bytes result ≡ dataspace_of (founds found.now) }
{
    match first(found, DATASPACE) {
        Some(m) if m.in_chunk_0 => Ok(m.body.as_slice()),
        _ => Err(Unsupported(4)),
    }
}

/// The data of the first message of a type that has to be there.
fn required(found: &[FoundMessage], kind: u8) -> Result<&[u8], Unsupported>
    ensures { viewed_bytes result ≡ or_refuse (body_of kind (founds found.now)) (record { 0 = 4 }) }
{
    match body(found, kind) {
        Some(b) => Ok(b),
        None => Err(Unsupported(4)),
    }
}

/// Whether the chunks are filtered.
#[tactic(auto, using(crate::proofs::DescribedLemmas::any_found))]
fn is_filtered(found: &[FoundMessage]) -> bool
    ensures { result ≡ list_any (λ m. m.kind == 0x0b) (founds found.now) }
{
    match first(found, FILTERS) {
        Some(_) => true,
        None => false,
    }
}

/// What cells are before they are written: 0 without a fill value message.
fn fill(found: &[FoundMessage], t: &IntType) -> Result<Fill, Unsupported>
    requires { IsIntType (int_type_of t.now) }
    ensures exact { viewed fill_of result ≡ model.fill_of (founds found.now) (int_type_of t.now) }
    ensures sized { IfOk result (λ f. ForSome f.value (λ c. c.size ≡ t.now.size)) }
{
    match body(found, FILL) {
        Some(b) => Fill::decode(b, t),
        None => Ok(Fill { value: None }),
    }
}

/// What the data of the dataspace, datatype and layout messages say.
fn decode(
    space: &[u8],
    datatype: &[u8],
    layout: &[u8],
    found: &[FoundMessage],
) -> Result<Dataset, Unsupported>
    ensures { viewed described_of result ≡ decoded space.now datatype.now layout.now (founds found.now) }
{
    let shape = Shape::decode(space)?;
    let int_type = IntType::decode(datatype)?;
    let fill = fill(found, &int_type)?;
    let layout = Layout::decode(layout, &shape, &int_type)?;
    Ok(Dataset {
        shape,
        int_type,
        fill,
        layout,
    })
}

/// What these messages say of a dataset, or the least number of what is unsupported.
pub fn describe(found: &[FoundMessage]) -> Result<Dataset, Unsupported>
    ensures { viewed described_of result ≡ described (founds found.now) }
{
    if is_filtered(found) {
        return Err(Unsupported(2));
    }
    if is_shared(found, DATASPACE)
        || is_shared(found, DATATYPE)
        || is_shared(found, FILL)
        || is_shared(found, LAYOUT)
    {
        return Err(Unsupported(3));
    }
    let space = dataspace(found)?;
    let datatype = required(found, DATATYPE)?;
    let layout = required(found, LAYOUT)?;
    decode(space, datatype, layout, found)
}
