//! What is written anew of a file: datasets, and where each of their chunks stands.
ghost use Rattle.std.specs.Prelude.{◌≡◌, ◌≤◌, ◌*◌, ◌<◌, ◌^◌, ◌++◌, ◌∷◌, [], length, true, None, Some, Err, IfErr, IfOk, IfSome, OnOk};
ghost use Rattle.h5w_model.specs.Integers.{cell_bytes};
ghost use Rattle.h5w_model.specs.Messages.{is_shape};
ghost use Rattle.h5w_types.specs.Fields.{shape_of};
ghost use Rattle.h5w_layout.specs.Layouts.{fill_of};
ghost use Rattle.h5w_chunks.specs.Grids.{IsGrid, dataset_of};
ghost use Rattle.h5w_dataset.specs.Described.{described_of};
ghost use Rattle.h5w_lookup.specs.Descents.{reading_news};
ghost use Rattle.h5w_survey.specs.Steps.{SurveyStep};
ghost use Rattle.h5w_several_laws.specs.Together.{IsAllValid};
ghost use Rattle.h5w_survey.specs.Surveys.{AllReadAs, IsRefusedFor, IsSurvey, IsSurveyOf, IsSurveyed, IsWhole, ReadsAs, RefusedAll, RefusedReading};

use crate::dataset::dataset;
use crate::error::SurveyError;
use crate::flags::closed;
use h5w_check::check;
use h5w_chunks::{Fill, Grid};
use h5w_dataset::Dataset;
use h5w_image::PieceRead;
use h5w_lookup::News;
use h5w_model::{Bytes, Cell};
use h5w_names::Names;
use h5w_packing::Source;
use h5w_types::Shape;
use std::alloc::Global;

/// The answer on a file that was found valid, and is another one now: somebody else writes it.
fn changed() -> SurveyError
    ensures { result ≡ SurveyError.Finding 8 0 }
{
    SurveyError::Finding { kind: 8, at: 0 }
}

/// Whether this is a shape that is read and written.
fn is_shape(s: &Shape) -> bool
    ensures { result ≡ is_shape (shape_of s.now) }
{
    (s.rank == 1 && s.cols == 1 && !s.growing) || (s.rank == 2 && (s.growing || s.cols != u64::MAX))
}

/// The same fill, as one of a type of this size.
fn sized_fill(fill: &Fill, size: u8) -> Fill
    requires some { IfSome fill.now.value (λ c. c.size ≡ size) }
    requires few { size ≤ 8 }
    ensures same { fill_of result ≡ fill_of fill.now }
    ensures sized { IfSome result.value (λ c. (c.size ≡ size) × (length (cell_bytes c) ≡ size)) }
{
    match fill.value {
        Some(c) => {
            let size = c.bytes[..usize::from(size)].len() as u8;
            Fill {
                value: Some(Cell {
                    bytes: c.bytes,
                    size,
                }),
            }
        }
        None => Fill { value: None },
    }
}

/// A dataset's grid of chunks.
fn grid_of(d: &Dataset) -> Grid
    requires { is_shape (shape_of d.now.shape) ≡ true }
    ensures grid { IsGrid result }
    ensures same { dataset_of result ≡ described_of d.now }
{
    Grid {
        shape: d.shape,
        int_type: d.int_type,
        fill: sized_fill(&d.fill, d.int_type.size),
        layout: d.layout,
    }
}

/// A copy of a name.
fn name_of(alloc: Global, name: &[u8]) -> Result<Bytes, SurveyError>
    ensures ok { IfOk result (λ b. b ≡ name.now) }
    ensures memory { IfErr result (λ e. e ≡ SurveyError.OutOfMemory) }
{
    match Vec::from_slice(alloc, name) {
        Ok(bytes) => Ok(Bytes::from_vec(bytes)),
        Err(_) => Err(SurveyError::OutOfMemory),
    }
}

/// The survey by what was found of the dataset of this name.
fn survey_of(name: Bytes, news: News) -> Result<Source, SurveyError>
    ensures sound { IfOk result IsSurveyed }
    ensures named { IfOk result (λ s. s.name ≡ name) }
    ensures dataset { IfOk result (λ s. dataset_of s.grid ≡ (reading_news None news).dataset) }
    ensures table { IfOk result (λ s. s.table.items ≡ (reading_news None news).table) }
    ensures refused { IfErr result (λ e. IsWhole (reading_news None news) → ⊥) }
    ensures quiet { result ≡ Err SurveyError.Failed → ⊥ }
{
    let News {
        dataset,
        found: mut table,
        ..
    } = news;
    let needed = dataset.needed();
    if needed > u128::from(dataset.limit()) || !is_shape(&dataset.shape) {
        return Err(changed());
    }
    table.truncate(needed as usize);
    if table.len() as u128 != needed {
        return Err(changed());
    }
    Ok(Source {
        name,
        grid: grid_of(&dataset),
        table,
    })
}

/// Finds the file of `size` bytes valid, by the datasets of these names.
fn checked<I: PieceRead>(
    alloc: Global,
    from: &mut I,
    size: u64,
    names: &Names,
) -> Result<(), SurveyError>
    requires size { IfSome (I.view from.old).bytes (λ img. size ≡ length img) }
    ensures step { SurveyStep (I.view from.old) (I.view from.new) (λ img a. IsAllValid img names.now) (λ img e. IsRefusedFor img names.now e) result }
{
    match check(alloc, from, size, names) {
        Ok(_) => Ok(()),
        Err(error) => Err(SurveyError::from(error)),
    }
}

/// What the root header at `root` shows of the dataset of this name.
fn shown<I: PieceRead>(
    alloc: Global,
    from: &mut I,
    root: u64,
    name: &[u8],
) -> Result<Source, SurveyError>
    ensures step { SurveyStep (I.view from.old) (I.view from.new) (λ img s. ReadsAs img root name.now s) (λ img e. RefusedReading img root name.now e) result }
    ensures sound { IfOk result IsSurveyed }
    ensures named { IfOk result (λ s. s.name ≡ name.now) }
{
    let copy = name_of(alloc, name)?;
    let news = dataset(alloc, from, root, name)?;
    survey_of(copy, news)
}

/// Puts a dataset behind others.
fn keep(sources: &mut Vec<Source>, source: Source) -> Result<(), SurveyError>
    ensures ok { OnOk result (sources.new.items ≡ sources.old.items ++ source ∷ []) }
    ensures memory { IfErr result (λ e. e ≡ SurveyError.OutOfMemory) }
{
    match sources.push(source) {
        Ok(()) => Ok(()),
        Err(_) => Err(SurveyError::OutOfMemory),
    }
}

/// What the root header at `root` shows of the datasets of these names, one after another.
fn all_shown<I: PieceRead>(
    alloc: Global,
    from: &mut I,
    root: u64,
    names: &Names,
) -> Result<Vec<Source>, SurveyError>
    ensures step { SurveyStep (I.view from.old) (I.view from.new) (λ img v. AllReadAs img root names.now v.items) (λ img e. RefusedAll img root names.now e) result }
    ensures sound { IfOk result (λ v. IsSurvey names.now v.items) }
{
    let mut sources = Vec::new(alloc);
    for name in names.as_slice() {
        let source = shown(alloc, from, root, name.as_slice())?;
        keep(&mut sources, source)?;
    }
    Ok(sources)
}

/// What is written anew of a file of `size` bytes: the datasets that the root group's links of these names lead to, in their order. The file
/// is checked first, for all of them together; then nobody may be writing it, and then it is looked at as a reader looks, by each name.
pub fn survey<I: PieceRead>(
    alloc: Global,
    from: &mut I,
    size: u64,
    names: &Names,
) -> Result<Vec<Source>, SurveyError>
    requires size { IfSome (I.view from.old).bytes (λ img. size ≡ length img) }
    // Where the image tells its bytes and nobody else writes it: what the file shows, or the first finding, or else its flags.
    ensures step { SurveyStep (I.view from.old) (I.view from.new) (λ img v. IsSurveyOf img names.now v.items) (λ img e. IsRefusedFor img names.now e) result }
    // On every image what is found are grids of chunks under these names, with so many addresses as their rows need.
    ensures sound { IfOk result (λ v. IsSurvey names.now v.items) }
{
    checked(alloc, from, size, names)?;
    let s = closed(alloc, from)?;
    all_shown(alloc, from, s.root, names)
}
