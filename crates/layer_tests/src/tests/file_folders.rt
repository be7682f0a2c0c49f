//! Images of this system's files.
ghost use Rattle.std.specs.Prelude.{IsTrue};

use crate::tests::has_bytes;
use image_commands::{Files, Obstacle};
use image_keeping::{Folder, Keeper, WholeImage};
use kept_files::FileFolder;
use std::marker::Send;
use std::test::Fail;
use std::{fs, io};

/// Whether a path can't be claimed, since another program has it.
fn is_claimed(rt: &HostRuntime, path: &str) -> bool {
    match rt.claim(rt.alloc(), path) {
        Err(obstacle) => obstacle == Obstacle::Served,
        Ok(_) => false,
    }
}

/// A keeper can be given to another thread.
fn is_for_any_thread<T: Send>(_value: &T) -> bool {
    true
}

/// Whether the image is kept with these bytes, and claimed then.
fn is_kept<K: Keeper>(rt: &HostRuntime, keeper: &mut K, path: &str, bytes: &[u8]) -> bool
    requires { IsTrue (K.is_usable keeper.old) }
    ensures { IsTrue result → IsTrue (K.is_usable keeper.new) }
{
    keeper.keep(bytes).is_ok() && is_claimed(rt, path)
}

/// Claims the image and keeps others in its place. Answers whether each is kept, and claimed by its
/// keeper.
fn are_kept(rt: &HostRuntime, path: &str) -> Result<bool, Obstacle> {
    let claim = rt.claim(rt.alloc(), path)?;
    let mut keeper = WholeImage::new(FileFolder::of_host(rt.alloc(), *rt, rt.keep_on(claim)));
    let are_kept = is_for_any_thread(&keeper)
        && is_kept(rt, &mut keeper, path, b"one")
        && is_kept(rt, &mut keeper, path, b"more than one")
        && is_kept(rt, &mut keeper, path, b"twice");
    drop(keeper);
    Ok(are_kept)
}

#[test]
fn the_image_is_kept_and_claimed(rt: HostRuntime) -> Result<(), Fail> {
    let path = "kept.image";
    fs::write(&rt, path, b"old")?;
    assert!(rt;
        are_kept(&rt, path)?,
        "each is kept, and claimed by its keeper"
    );
    assert!(rt; has_bytes(&rt, path, b"twice"));
    assert!(rt; fs::metadata(&rt, "kept.image.s4serve.new.part").is_err());
    assert!(rt; !is_claimed(&rt, path));
    fs::remove_file(&rt, path)?;
    Ok(())
}

/// Makes the image in a folder of its own.
fn make(rt: &HostRuntime, path: &str) -> io::Result<()> {
    fs::create_dir(rt, "moved")?;
    fs::write(rt, path, b"old")
}

/// Puts another file in its place.
fn replace(rt: &HostRuntime, path: &str) -> io::Result<()> {
    fs::write(rt, "moved/another.image", b"other")?;
    fs::rename(rt, "moved/another.image", path)
}

/// Removes its folder, and what is there.
fn remove(rt: &HostRuntime, path: &str) -> io::Result<()> {
    fs::remove_file(rt, "moved/an.image.s4serve.new")?;
    fs::remove_file(rt, path)?;
    fs::remove_dir(rt, "moved")
}

/// Claims the image, puts another file in its place, and keeps a new one. Answers whether that is
/// refused.
fn is_refused(rt: &HostRuntime, path: &str) -> Result<bool, Obstacle> {
    let claim = rt.claim(rt.alloc(), path)?;
    let mut keeper = WholeImage::new(FileFolder::of_host(rt.alloc(), *rt, rt.keep_on(claim)));
    let is_replaced = replace(rt, path).is_ok();
    let is_refused = keeper.keep(b"new").is_err();
    // The new one has all its bytes beside it.
    let is_beside = has_bytes(rt, "moved/an.image.s4serve.new", b"new");
    drop(keeper);
    Ok(is_replaced && is_refused && is_beside)
}

#[test]
fn another_file_is_not_replaced(rt: HostRuntime) -> Result<(), Fail> {
    let path = "moved/an.image";
    make(&rt, path)?;
    assert!(rt; is_refused(&rt, path)?);
    assert!(rt; has_bytes(&rt, path, b"other"));
    remove(&rt, path)?;
    Ok(())
}
