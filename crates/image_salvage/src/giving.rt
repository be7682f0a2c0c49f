//! What was salvaged, given out as files of a folder.
ghost use Rattle.std.specs.Prelude.{◌≡◌, true, length, IfOk, IfErr, OnOk};
ghost use Rattle.std.specs.Option.{option_map};
ghost use Rattle.segment_table.specs.Used.{used_at};
ghost use Rattle.history_export.specs.Folders.{with_bytes};
ghost use Rattle.history_export.specs.Manifest.{manifest_name};
ghost use Rattle.history_export.specs.Exports.{Explains, IsOfWriting};
ghost use Rattle.image_salvage.specs.Contents.{blocks_gone};
ghost use Rattle.image_salvage.specs.Manifest.{lost_object_line};
ghost use Rattle.image_salvage.specs.Giving.{GivesOut, GivesRows, counted, fate_of, is_whole};
ghost use Rattle.image_salvage.specs.Giving.{left_out_of, none_given, with_frames, with_given};
ghost use Rattle.image_salvage.specs.Giving.{with_gone, with_lost, with_row, with_salvaged};
ghost use Rattle.image_salvage.specs.Giving.{with_all_unlisted, with_unlisted};
ghost use Rattle.image_salvage.specs.Wholeness.{IsGivenWhole};

use crate::manifest::{
    lost_frame_line, lost_object_line, salvaged_line, unlisted_line, unlisted_name,
};
use crate::rows::Salvaged;
use crate::salvaging::SalvagedImage;
use crate::unlisted::Unlisted;
use codec::Inode;
use history_export::{ExportError, Folder, add_line, add_named, add_object, begin_folder};
use history_view::listed_of;
use s4_types::ObjectId;
use std::alloc::Global;

/// What was given out of an image, and what is lost. Each count stops at 2^64 - 1, far above what
/// an image can have.
#[derive(Clone, Copy)]
pub struct GivenOut {
    /// The last object that was given out, 0 where none was.
    pub last: ObjectId,
    /// How many objects were given out.
    pub objects: u64,
    /// How many blocks are gone of all objects that were given out, also of those that no row gives.
    /// Zeros are in their place.
    pub blocks_gone: u64,
    /// How many rows gave no object: they give none, or name one again or out of order, or an older
    /// block of it than there is, or aren't found though the header counts them.
    pub lost_objects: u64,
    /// How many frames are lost.
    pub lost_frames: u64,
    /// How many objects were given out beside these that no row gives.
    pub unlisted: u64,
    /// Of how many of these a newer change was left out, since it may not be there whole.
    pub left_out: u64,
    /// Whether the bytes are no image.
    pub damaged: bool,
}

impl GivenOut {
    /// Whether nothing is lost: the bytes are an image, and no count says that anything is gone.
    pub fn is_whole(&self) -> bool
        ensures { result ≡ is_whole self.now }
    {
        let sound = !self.damaged && self.blocks_gone == 0;
        sound && (self.lost_objects == 0 && self.lost_frames == 0)
    }

    // With an object more, of which this many blocks are gone.
    fn with_given(&self, object: ObjectId, gone: u64) -> GivenOut
        ensures { result ≡ with_given object gone self.now }
    {
        GivenOut {
            last: object,
            objects: self.objects.saturating_add(1),
            blocks_gone: self.blocks_gone.saturating_add(gone),
            lost_objects: self.lost_objects,
            lost_frames: self.lost_frames,
            unlisted: self.unlisted,
            left_out: self.left_out,
            damaged: self.damaged,
        }
    }

    // With a lost object more.
    fn with_lost(&self) -> GivenOut
        ensures { result ≡ with_lost self.now }
    {
        GivenOut {
            last: self.last,
            objects: self.objects,
            blocks_gone: self.blocks_gone,
            lost_objects: self.lost_objects.saturating_add(1),
            lost_frames: self.lost_frames,
            unlisted: self.unlisted,
            left_out: self.left_out,
            damaged: self.damaged,
        }
    }
}

/// What becomes of a row.
#[derive(Clone, Copy)]
enum Fate {
    /// Its object is given out.
    Given(Inode),
    Lost,
    /// Its object was deleted.
    Deleted,
}

// What becomes of a row, after the object that was given out last.
fn fate_of(last: ObjectId, row: &Salvaged) -> Fate
    ensures { result ≡ fate_of last row.now }
{
    let Some(inode) = row.present else {
        return Fate::Lost;
    };
    if !inode.alive {
        return Fate::Deleted;
    }
    if row.object.number() <= last.number() {
        return Fate::Lost;
    }
    Fate::Given(inode)
}

/// Writes each object that was salvaged into an empty folder, as a file of its bytes, and what each
/// file is into a manifest, one line of JSON for each, in the order of the rows. Lines in front
/// tell of the frames that are lost, and lines between of the objects. An object that was deleted
/// has neither. Objects that no row gives come last, in a folder of their own.
///
/// Where what was given out is whole, each object of the image is in the folder, with all of its
/// bytes, and none of its blocks is gone.
///
/// NotEmpty where anything is in the folder. In memory there is one object at a time, beside the
/// image.
pub fn give_out<F: Folder>(
    alloc: Global,
    image: &SalvagedImage,
    folder: &mut F,
) -> Result<GivenOut, ExportError>
    ensures gives { IfOk result
        (λ given. GivesOut image.now given (F.files folder.old) (F.files folder.new)) }
    ensures whole { IfOk result
        (λ given. is_whole given ≡ true → IsGivenWhole image.now (F.files folder.new)) }
    ensures path { F.path folder.new ≡ F.path folder.old }
    ensures refused { IfErr result (Explains (F.files folder.old)) }
{
    begin_folder(folder)?;
    tell_frames(alloc, image.lost_frames(), folder)?;
    let given = give_rows(alloc, image, folder)?;
    give_all_unlisted(alloc, image, folder)?;
    Ok(given)
}

// Adds the lines of lost frames to the manifest.
fn tell_frames<F: Folder>(alloc: Global, lost: &[u16], folder: &mut F) -> Result<(), ExportError>
    ensures files { OnOk result
        (F.files folder.new ≡ option_map (with_frames lost.now) (F.files folder.old)) }
    ensures path { F.path folder.new ≡ F.path folder.old }
    ensures refused { IfErr result IsOfWriting }
{
    match lost {
        [] => Ok(()),
        [frame, rest @ ..] => {
            let line = lost_frame_line(alloc, *frame)?;
            add_line(folder, line.as_bytes())?;
            tell_frames(alloc, rest, folder)
        }
    }
}

// Gives out what each row gives.
fn give_rows<F: Folder>(
    alloc: Global,
    image: &SalvagedImage,
    folder: &mut F,
) -> Result<GivenOut, ExportError>
    ensures gives { IfOk result
        (λ given. GivesRows image.now given (F.files folder.old) (F.files folder.new)) }
    ensures path { F.path folder.new ≡ F.path folder.old }
    ensures refused { IfErr result IsOfWriting }
{
    let mut given = none_given(image);
    for index in 0..image.rows() {
        let row = image.row(alloc, index)?;
        give_row(alloc, image, folder, &row, &mut given)?;
    }
    Ok(given)
}

// How many objects of these have a newer change that was left out.
fn left_out_of(unlisted: &[Unlisted]) -> u64
    ensures { result ≡ left_out_of unlisted.now }
{
    unlisted.iter().filter(|it| it.left_out).count() as u64
}

// How many blocks are gone of the objects that no row gives.
fn unlisted_gone(image: &SalvagedImage) -> u64
    ensures { result ≡ with_gone (used_at image.now.table) image.now.unlisted 0 }
{
    let objects = image.unlisted();
    let mut gone: u64 = 0;
    for unlisted in objects {
        gone = gone.saturating_add(image.gone(unlisted.object, &unlisted.inode) as u64);
    }
    gone
}

// No row of an image is given out yet: what is known are its missing rows, its lost frames, the
// objects that no row gives, how many blocks of these are gone and changes left out, and whether it
// has a fault.
fn none_given(image: &SalvagedImage) -> GivenOut
    ensures { result ≡ none_given image.now }
{
    GivenOut {
        last: ObjectId::new(0),
        objects: 0,
        blocks_gone: unlisted_gone(image),
        lost_objects: image.missing_rows(),
        lost_frames: image.lost_frames().len() as u64,
        unlisted: image.unlisted().len() as u64,
        left_out: left_out_of(image.unlisted()),
        damaged: image.fault().is_some(),
    }
}

// Gives out what a row gives.
fn give_row<F: Folder>(
    alloc: Global,
    image: &SalvagedImage,
    folder: &mut F,
    row: &Salvaged,
    given: &mut GivenOut,
) -> Result<(), ExportError>
    ensures files { OnOk result
        (F.files folder.new
        ≡ option_map (with_row (used_at image.now.table) given.old row.now)
        (F.files folder.old)) }
    ensures path { F.path folder.new ≡ F.path folder.old }
    ensures given { OnOk result (given.new ≡ counted (used_at image.now.table) given.old row.now) }
    ensures refused { IfErr result IsOfWriting }
{
    match fate_of(given.last, row) {
        Fate::Given(inode) => give_object(alloc, image, folder, row.object, &inode, given),
        Fate::Lost => tell_lost(alloc, folder, row.object, given),
        Fate::Deleted => Ok(()),
    }
}

// Writes an object, tells it in the manifest, and counts it.
fn give_object<F: Folder>(
    alloc: Global,
    image: &SalvagedImage,
    folder: &mut F,
    object: ObjectId,
    inode: &Inode,
    given: &mut GivenOut,
) -> Result<(), ExportError>
    ensures files { OnOk result
        (F.files folder.new
        ≡ option_map (with_salvaged (used_at image.now.table) object inode.now)
        (F.files folder.old)) }
    ensures path { F.path folder.new ≡ F.path folder.old }
    ensures given { OnOk result
        (given.new
        ≡ with_given object (blocks_gone (used_at image.now.table) object inode.now)
        given.old) }
    ensures refused { IfErr result IsOfWriting }
{
    let content = image.content(alloc, object, inode)?;
    let gone = image.gone(object, inode) as u64;
    let row = listed_of(object, inode);
    let line = salvaged_line(alloc, &row, content.as_slice(), gone)?;
    add_object(alloc, folder, object, content.as_slice(), line.as_bytes())?;
    *given = given.with_given(object, gone);
    Ok(())
}

// Tells in the manifest that an object is lost, and counts it.
fn tell_lost<F: Folder>(
    alloc: Global,
    folder: &mut F,
    object: ObjectId,
    given: &mut GivenOut,
) -> Result<(), ExportError>
    ensures files { OnOk result
        (F.files folder.new
        ≡ option_map (with_bytes manifest_name (lost_object_line object))
        (F.files folder.old)) }
    ensures path { F.path folder.new ≡ F.path folder.old }
    ensures given { OnOk result (given.new ≡ with_lost given.old) }
    ensures refused { IfErr result IsOfWriting }
{
    let line = lost_object_line(alloc, object)?;
    add_line(folder, line.as_bytes())?;
    *given = given.with_lost();
    Ok(())
}

// Gives out the objects that no row gives.
fn give_all_unlisted<F: Folder>(
    alloc: Global,
    image: &SalvagedImage,
    folder: &mut F,
) -> Result<(), ExportError>
    ensures files { OnOk result
        (F.files folder.new
        ≡ option_map (with_all_unlisted (used_at image.now.table) image.now.unlisted)
        (F.files folder.old)) }
    ensures path { F.path folder.new ≡ F.path folder.old }
    ensures refused { IfErr result IsOfWriting }
{
    let objects = image.unlisted();
    for unlisted in objects {
        give_unlisted(alloc, image, folder, unlisted)?;
    }
    Ok(())
}

// Writes an object that no row gives, and names it in the manifest.
fn give_unlisted<F: Folder>(
    alloc: Global,
    image: &SalvagedImage,
    folder: &mut F,
    unlisted: &Unlisted,
) -> Result<(), ExportError>
    ensures files { OnOk result
        (F.files folder.new
        ≡ option_map (with_unlisted (used_at image.now.table) unlisted.now)
        (F.files folder.old)) }
    ensures path { F.path folder.new ≡ F.path folder.old }
    ensures refused { IfErr result IsOfWriting }
{
    let object = unlisted.object;
    let content = image.content(alloc, object, &unlisted.inode)?;
    let gone = image.gone(object, &unlisted.inode) as u64;
    let row = listed_of(object, &unlisted.inode);
    let line = unlisted_line(alloc, &row, content.as_slice(), gone, unlisted.left_out)?;
    let name = unlisted_name(alloc, object)?;
    add_named(
        folder,
        object,
        name.as_str(),
        content.as_slice(),
        line.as_bytes(),
    )
}
