//! `salvage`: what a damaged image still has of its objects, as files in a folder.
ghost use Rattle.std.specs.Prelude.{◌≡◌, ◌+◌, ◌^◌, ◌<◌, IfOk, OnOk, string_bytes};
ghost use Rattle.std.specs.Io.KnownBytes.{Appends};
ghost use Rattle.s4_folders.specs.Salvaging.{SalvagesFile, SalvagesInto, counts_text, damage_count};
ghost use Rattle.s4_folders.specs.Salvaging.{lost_text, given_text, given_words, verdict_of};
ghost use Rattle.s4_folders.specs.Salvaging.{written_text};

use crate::exporting::Folders;
use history_export::Folder;
use image_commands::{Files, read_bytes, write_out};
use image_salvage::laws::what_is_whole_is_all;
use image_salvage::{GivenOut, SalvagedImage, give_out, given_json, salvage};
use s4_command::SalvageAsked;
use s4_images::{Failure, Verdict};
use s4_types::Refusal;
use serving::Sink;
use std::alloc::{AllocError, Global};
use std::thread::Threads;

/// Writes what the image in a file still has of its objects into the folder at a path, and prints
/// how much that is. The folder is made once it is known that the file has something of an image.
/// `Fine` where nothing is lost: the file is an image, and each live object was written whole.
pub fn salvage_image<T: Threads, F: Files, D: Folders, W: Sink>(
    rt: &T,
    alloc: Global,
    files: &F,
    folders: &D,
    asked: &SalvageAsked<'_>,
    writer: &mut W,
) -> Result<Verdict, Failure>
    requires writer { W.failures writer.old + 1 < 2 ^ 64 }
    ensures salvages { IfOk result
        (λ verdict. SalvagesFile D.Opened.path D.Opened.files verdict
        (F.contents files.now asked.now.image.now) asked.now (W.passed writer.old)
        (W.passed writer.new)) }
{
    what_is_whole_is_all();
    let bytes = read_bytes(alloc, files, asked.image)?;
    let image = salvage(rt, alloc, bytes.as_slice())?;
    let Ok(mut folder) = folders.folder(alloc, asked.folder) else {
        return Err(Failure::NoFolder);
    };
    salvage_into(alloc, &image, asked.json, &mut folder, writer)
}

// The same of an image of which it is known what it still has.
#[tactic(auto, using(crate::proofs::Fine::fine_is_whole))]
fn salvage_into<D: Folder, W: Sink>(
    alloc: Global,
    image: &SalvagedImage,
    json: bool,
    folder: &mut D,
    writer: &mut W,
) -> Result<Verdict, Failure>
    requires writer { W.failures writer.old + 1 < 2 ^ 64 }
    ensures salvages { IfOk result
        (λ verdict. SalvagesInto image.now json verdict (D.files folder.old) (D.files folder.new)
        (W.passed writer.old) (W.passed writer.new)) }
    ensures path { D.path folder.new ≡ D.path folder.old }
{
    match give_out(alloc, image, folder) {
        Ok(given) => {
            write_given(alloc, &given, json, writer)?;
            Ok(verdict_of(&given))
        }
        Err(error) => Err(Failure::from(error)),
    }
}

// What was found: whether anything is lost.
fn verdict_of(given: &GivenOut) -> Verdict
    ensures { result ≡ verdict_of given.now }
{
    if given.is_whole() {
        return Verdict::Fine;
    }
    Verdict::Differs
}

// Writes how much was given out, and how much is lost.
fn write_given<W: Sink>(
    alloc: Global,
    given: &GivenOut,
    json: bool,
    writer: &mut W,
) -> Result<(), Failure>
    requires writer { W.failures writer.old + 1 < 2 ^ 64 }
    ensures text { OnOk result
        (Appends (W.passed writer.old) (W.passed writer.new) (given_words json given.now)) }
{
    let text = match given_words(alloc, given, json) {
        Ok(text) => text,
        Err(_) => return Err(Failure::from(Refusal::NoMemory)),
    };
    write_out(writer, text.as_bytes())?;
    Ok(())
}

// What is printed, as JSON where that is asked for.
fn given_words(alloc: Global, given: &GivenOut, json: bool) -> Result<String, AllocError>
    ensures { IfOk result (λ text. string_bytes text ≡ given_words json given.now) }
{
    if json {
        return given_json(alloc, given);
    }
    given_text(alloc, given)
}

// 1 where the bytes are no image.
fn damage_count(given: &GivenOut) -> u64
    ensures { result ≡ damage_count given.now }
{
    if given.damaged { 1 } else { 0 }
}

// The counts of what is lost or uncertain, with the one that says whether the bytes are no image.
fn lost_text(alloc: Global, given: &GivenOut, damaged: u64) -> Result<String, AllocError>
    ensures { IfOk result (λ text. string_bytes text ≡ lost_text given.now damaged) }
{
    let (lost, frames) = (given.lost_objects, given.lost_frames);
    let (unlisted, left_out) = (given.unlisted, given.left_out);
    format!(in alloc;
        "lost_objects {lost}\nlost_frames {frames}\nunlisted {unlisted}\nleft_out {left_out}\ndamaged {damaged}\n"
    )
}

// The counts of what was written.
fn written_text(alloc: Global, given: &GivenOut) -> Result<String, AllocError>
    ensures { IfOk result (λ text. string_bytes text ≡ written_text given.now) }
{
    let (objects, gone) = (given.objects, given.blocks_gone);
    format!(in alloc; "objects {objects}\nblocks_gone {gone}\n")
}

// The counts, with the one that says whether the bytes are no image.
fn counts_text(alloc: Global, given: &GivenOut, damaged: u64) -> Result<String, AllocError>
    ensures { IfOk result (λ text. string_bytes text ≡ counts_text given.now damaged) }
{
    let mut text = written_text(alloc, given)?;
    let lost = lost_text(alloc, given, damaged)?;
    text.push_str(&lost)?;
    Ok(text)
}

fn given_text(alloc: Global, given: &GivenOut) -> Result<String, AllocError>
    ensures { IfOk result (λ text. string_bytes text ≡ given_text given.now) }
{
    counts_text(alloc, given, damage_count(given))
}
