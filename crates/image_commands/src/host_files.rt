//! The files of this system.
ghost use Rattle.std.specs.Prelude.{◌≡◌, false, None, IfErr, IsSome, string_bytes, ⊤};
ghost use Rattle.image_commands.specs.Leaving.{IsUnread};

use crate::beside::{MOST_BESIDE, Names, beside_path, is_beside_name, left_path};
use crate::files::{Files, NotReplaced, Placed};
use crate::leftovers::LeftFault;
use crate::obstacles::Obstacle;
use crate::paths::{
    are_in_one_folder, are_one_file, are_one_path, end_of_path, folder_of, found, is_file_of,
    real_path,
};
use std::alloc::Global;
use std::fs::{self, File, Metadata, OpenOptions, TryLockError};
use std::io::{self, Read, Seek, SeekFrom, Stderr, Stdin, Stdout, Write};
use std::os::unix::fs::{MetadataExt, OpenOptionsExt, fchown};
use std::path::Path;

/// Who may read and write the file beside an image until it has the image's own mode: nobody else.
const PRIVATE: u32 = 0o600;

/// Who may read and write a new image, by the mask of who made it.
const ORDINARY: u32 = 0o666;

/// How many zeros are written at once, where memory allows.
const ZEROS_AT_ONCE: usize = 1 << 20;

/// Zeros that are written at once where it doesn't.
const FEW_ZEROS: [u8; 4096] = [0; 4096];

/// Where an image is, or will be, on this system.
#[derive(Drop)]
pub struct ImageClaim {
    /// Its path as it was given.
    given: String,
    /// Its path without links.
    path: String,
    /// The image, locked, where it is there.
    image: Option<File>,
    /// By which names files beside it go.
    names: Names,
}

impl ImageClaim {
    /// The image's path without links.
    pub fn path(&self) -> &str
        ensures { result.now ≡ string_bytes self.now.path }
    {
        self.path.as_str()
    }

    /// The image as it was claimed, locked. None where it isn't there.
    pub fn image(&self) -> Option<&File>
        ensures { IsSome self.now.image → IsSome result }
    {
        match &self.image {
            Some(image) => Some(image),
            None => None,
        }
    }

    /// Whether its paths still lead to the file that was claimed, or still to none.
    pub fn is_as_claimed(&self, rt: &HostRuntime) -> io::Result<bool> {
        is_as_claimed(rt, self)
    }

    /// Claims this file, which is locked and has the image's path now, in place of the one that had
    /// it.
    pub fn hold(&mut self, image: File)
        ensures { self.new.path ≡ self.old.path }
    {
        self.image = Some(image);
    }
}

/// A file of this system beside an image, locked.
#[derive(Drop)]
pub struct BesideFile {
    path: String,
    file: File,
    /// The folder that both are in.
    folder: File,
}

/// A file of this system that may have been left beside an image, locked.
#[derive(Drop)]
pub struct LeftFile {
    path: String,
    file: File,
}

impl LeftFile {
    /// Its path without links.
    pub fn path(&self) -> &str
        ensures { result.now ≡ string_bytes self.now.path }
    {
        self.path.as_str()
    }
}

/// The standard streams. The system opens no socket by a path, so what their paths name is not
/// opened, but used as it is.
#[derive(Clone, Copy)]
enum Standard {
    Input,
    Output,
    Error,
}

/// What is at a path.
#[derive(Clone, Copy)]
enum Kind {
    File,
    Folder,
    Other,
}

/// What a session reads on this system.
#[derive(Drop)]
pub enum Input {
    Named(File),
    Standard(Stdin),
}

impl Read for Input {
    fn read(&mut self, buffer: &mut [u8]) -> io::Result<usize> {
        match self {
            Input::Named(file) => file.read(buffer),
            Input::Standard(input) => input.read(buffer),
        }
    }
}

/// What a session writes on this system.
#[derive(Drop)]
pub enum Output {
    Named(File),
    Standard(Stdout),
    Error(Stderr),
    /// A file that could not be emptied.
    Full,
}

impl Write for Output {
    fn write(&mut self, buffer: &[u8]) -> io::Result<usize> {
        match self {
            Output::Named(file) => file.write(buffer),
            Output::Standard(output) => output.write(buffer),
            Output::Error(errors) => errors.write(buffer),
            Output::Full => Err(io::Error::from(io::ErrorKind::Other)),
        }
    }

    fn flush(&mut self) -> io::Result<()> {
        match self {
            Output::Named(file) => file.flush(),
            Output::Standard(output) => output.flush(),
            Output::Error(errors) => errors.flush(),
            Output::Full => Ok(()),
        }
    }
}

impl Files for HostRuntime {
    type Reader = Input;

    type Opened = Output;

    type Writer = Output;

    type Claim = ImageClaim;

    type Beside = BesideFile;

    type Leftover = LeftFile;

    // No clause of the standard library says what a file of the system holds.
    ghost contents = { λ _ _. None };

    ghost leads = { λ _ _. ⊤ };

    ghost reserves = { λ _ _. false };

    ghost is_beside = { λ _ _. false };

    ghost is_left = { λ _ _. false };

    ghost is_part = { λ _ _. false };

    ghost serves = { λ _ _. ⊤ };

    // Nor what lies where in its folders.
    ghost lies = { λ _ _ _ _. ⊥ };

    ghost apart = { λ _ _. ⊤ };

    ghost opens = { λ _ _. ⊤ };

    ghost writes = { λ _ _. ⊤ };

    fn open(&self, path: &str) -> io::Result<Input> {
        match standard_stream(path) {
            Some(Standard::Input) => Ok(Input::Standard(self.stdin())),
            _ => Ok(Input::Named(File::open(self, path)?)),
        }
    }

    fn open_output(&mut self, path: &str) -> io::Result<Output> {
        match standard_stream(path) {
            Some(Standard::Output) => Ok(Output::Standard(self.stdout())),
            Some(Standard::Error) => Ok(Output::Error(self.stderr())),
            _ => {
                let file = OpenOptions::new()
                    .write(true)
                    .create(true)
                    .open(self, path)?;
                Ok(Output::Named(file))
            }
        }
    }

    fn empty(&mut self, opened: Output) -> Output {
        match opened {
            Output::Named(file) => emptied(file),
            stream => stream,
        }
    }

    fn finish(&mut self, path: &str, writer: &Output) -> bool {
        match writer {
            Output::Named(file) => is_still_at(self, file, path),
            _ => true,
        }
    }

    fn are_same(&self, first: &str, second: &str) -> io::Result<bool> {
        match (found(self, first), found(self, second)) {
            (Some(one), Some(other)) => Ok(are_one_file(&one, &other)),
            (None, None) => are_one_path(self, first, second),
            _ => Ok(false),
        }
    }

    fn claim(&self, alloc: Global, path: &str) -> Result<ImageClaim, Obstacle> {
        let given = String::from_str(alloc, path)?;
        let (path, is_there) = real_path(self, alloc, path)?;
        let image = match is_there {
            true => Some(locked(self, path.as_str())?),
            false => None,
        };
        Ok(ImageClaim {
            given,
            path,
            image,
            names: Names::OfCommands,
        })
    }

    fn keep_on(&self, claim: ImageClaim) -> ImageClaim {
        let mut claim = claim;
        claim.names = Names::OfServices;
        claim
    }

    fn is_in_place(&self, claim: &ImageClaim) -> bool {
        is_as_claimed(self, claim).unwrap_or(false)
    }

    fn has_bytes(&self, claim: &ImageClaim) -> io::Result<bool> {
        match &claim.image {
            Some(image) => Ok(image.metadata()?.len() > 0),
            None => Ok(false),
        }
    }

    fn is_reserved(&self, claim: &ImageClaim, path: &str) -> io::Result<bool> {
        let path = end_of_path(self, path)?;
        let (path, image) = (Path::new(path.as_str()), Path::new(claim.path.as_str()));
        match (path.file_name(), image.file_name()) {
            (Some(name), Some(of)) if is_beside_name(name, of) => {
                Ok(are_in_one_folder(self, path, image))
            }
            _ => Ok(false),
        }
    }

    fn make_beside(
        &mut self,
        alloc: Global,
        claim: &ImageClaim,
        length: usize,
    ) -> Result<BesideFile, Obstacle> {
        let mut beside = new_beside(self, alloc, claim)?;
        match prepare(alloc, &mut beside.file, claim, length) {
            Ok(()) => Ok(beside),
            Err(obstacle) => {
                self.remove_beside(beside);
                Err(obstacle)
            }
        }
    }

    fn remove_beside(&mut self, beside: BesideFile) {
        // It is of no use to anybody, also where it can't be removed.
        let _ = fs::remove_file(self, beside.path.as_str());
    }

    fn leftover(
        &self,
        alloc: Global,
        claim: &ImageClaim,
        number: u32,
    ) -> Result<Option<LeftFile>, LeftFault> {
        match left_path(alloc, claim.path.as_str(), claim.names, number) {
            Ok(Some(path)) => left_at(self, path),
            Ok(None) => Ok(None),
            Err(_) => Err(LeftFault::NoMemory),
        }
    }

    fn leftover_path(&self, leftover: LeftFile) -> String {
        leftover.path
    }

    fn open_leftover(&self, leftover: &LeftFile) -> io::Result<Input> {
        Ok(Input::Named(leftover.file.try_clone()?))
    }

    fn remove_leftover(&mut self, leftover: LeftFile) {
        // Where it stays its name is passed over, as that of a file which is in use.
        let _ = fs::remove_file(self, leftover.path.as_str());
    }

    fn replace(
        &mut self,
        claim: ImageClaim,
        beside: BesideFile,
        bytes: &[u8],
    ) -> Result<Placed, NotReplaced> {
        let mut beside = beside;
        let replaced = match fill(&mut beside.file, bytes) {
            Ok(()) => put_filled(self, &claim, beside),
            Err(error) => {
                self.remove_beside(beside);
                Err(NotReplaced {
                    obstacle: Obstacle::from(error),
                    kept: None,
                })
            }
        };
        drop(claim);
        replaced
    }
}

// The standard stream that a path names, if it does.
fn standard_stream(path: &str) -> Option<Standard> {
    match path {
        "/dev/stdin" | "/dev/fd/0" | "/proc/self/fd/0" => Some(Standard::Input),
        "/dev/stdout" | "/dev/fd/1" | "/proc/self/fd/1" => Some(Standard::Output),
        "/dev/stderr" | "/dev/fd/2" | "/proc/self/fd/2" => Some(Standard::Error),
        _ => None,
    }
}

// A file that was opened to be written, without the bytes that it had. What is no file, as a pipe,
// has none.
fn emptied(file: File) -> Output {
    match remove_bytes(&file) {
        Ok(()) => Output::Named(file),
        Err(_) => Output::Full,
    }
}

// Removes the bytes of a file that can be written.
fn remove_bytes(file: &File) -> io::Result<()> {
    if file.metadata()?.is_file() {
        file.set_len(0)?;
    }
    Ok(())
}

// Whether a path names this very file. What is no file, as a pipe, keeps nothing that is looked for
// at a path.
fn is_still_at(rt: &HostRuntime, file: &File, path: &str) -> bool {
    match (file.metadata(), found(rt, path)) {
        (Ok(about), Some(now)) => !about.is_file() || are_one_file(&about, &now),
        (Ok(about), None) => !about.is_file(),
        (Err(_), _) => false,
    }
}

// The image of this path, locked against other programs. An obstacle where it is no regular file,
// or nobody may write it, though who runs this may do anything; where another program has it, or
// has just put another one in its place.
fn locked(rt: &HostRuntime, path: &str) -> Result<File, Obstacle> {
    // A stream isn't opened: that could wait, or be seen at its other end.
    match kind_at(rt, path)? {
        Kind::File => {}
        Kind::Folder => return Err(Obstacle::Folder),
        Kind::Other => return Err(Obstacle::NoFile),
    }
    let image = open_to_change(rt, path)?;
    lock_image(rt, &image, path)?;
    Ok(image)
}

// What is at a path.
fn kind_at(rt: &HostRuntime, path: &str) -> io::Result<Kind> {
    let about = fs::metadata(rt, path)?;
    if about.is_file() {
        Ok(Kind::File)
    } else if about.is_dir() {
        Ok(Kind::Folder)
    } else {
        Ok(Kind::Other)
    }
}

// Locks the image of this path, where its mode lets anybody write it.
fn lock_image(rt: &HostRuntime, image: &File, path: &str) -> Result<(), Obstacle> {
    if is_read_only(image)? {
        return Err(Obstacle::NotAllowed);
    }
    match lock(rt, image, path)? {
        true => Ok(()),
        false => Err(Obstacle::Served),
    }
}

// Whether a file's mode lets nobody write it.
fn is_read_only(file: &File) -> io::Result<bool> {
    Ok(file.metadata()?.permissions().readonly())
}

// Opens a file that is there, to be read and written.
fn open_to_change(rt: &HostRuntime, path: &str) -> io::Result<File> {
    OpenOptions::new().read(true).write(true).open(rt, path)
}

// Locks a file against other programs, and says whether it is at its path then. Not so where
// another program has it.
fn lock(rt: &HostRuntime, file: &File, path: &str) -> io::Result<bool> {
    match file.try_lock() {
        Ok(()) => is_at(rt, file, path),
        Err(TryLockError::WouldBlock) => Ok(false),
        Err(TryLockError::Error(error)) => Err(error),
    }
}

// Whether a path without links leads to this very file.
fn is_at(rt: &HostRuntime, file: &File, path: &str) -> io::Result<bool> {
    is_file_of(rt, &file.metadata()?, path)
}

// Whether a path, by links or without, leads to this very file.
fn is_led_to(rt: &HostRuntime, file: &File, path: &str) -> io::Result<bool> {
    let about = file.metadata()?;
    match found(rt, path) {
        Some(now) => Ok(are_one_file(&about, &now)),
        None => Ok(false),
    }
}

// Makes an empty file beside an image, by the first name that no file has. So nobody else writes
// it, no file that was there is lost, and the name is short however long the image's is.
fn new_beside(rt: &HostRuntime, alloc: Global, claim: &ImageClaim) -> Result<BesideFile, Obstacle> {
    // It is opened now, so that a folder of which that is refused is known before any session.
    let folder = folder_beside(rt, claim)?;
    for number in 0..MOST_BESIDE {
        if let Some((path, file)) = numbered_beside(rt, alloc, claim, number)? {
            return Ok(BesideFile { path, file, folder });
        }
    }
    Err(Obstacle::NoName)
}

// The folder that an image is in, opened.
fn folder_beside(rt: &HostRuntime, claim: &ImageClaim) -> io::Result<File> {
    File::open(rt, folder_of(Path::new(claim.path.as_str())))
}

// Makes it by the name of this number, where that is free.
fn numbered_beside(
    rt: &HostRuntime,
    alloc: Global,
    claim: &ImageClaim,
    number: u32,
) -> Result<Option<(String, File)>, Obstacle> {
    let path = beside_path(alloc, claim.path.as_str(), claim.names, number)?;
    match made_beside(rt, claim, path.as_str())? {
        Some(file) => Ok(Some((path, file))),
        None => Ok(None),
    }
}

// Makes it at a path without links, and locks it. None where that isn't free.
fn made_beside(rt: &HostRuntime, claim: &ImageClaim, path: &str) -> Result<Option<File>, Obstacle> {
    match can_be_linked(rt, claim, path)? {
        true => made_locked(rt, claim, path),
        false => Ok(None),
    }
}

// Whether a name beside an image is free. An image that is mounted by itself can't be renamed over,
// and the system says that of a link of the image, too: so one is made by that name, and removed.
// What else a link is refused for proves nothing.
fn can_be_linked(rt: &HostRuntime, claim: &ImageClaim, path: &str) -> Result<bool, Obstacle> {
    if claim.image.is_none() {
        return Ok(true);
    }
    match fs::hard_link(rt, claim.path.as_str(), path) {
        Ok(()) => {
            fs::remove_file(rt, path)?;
            Ok(true)
        }
        Err(error) => match error.kind() {
            io::ErrorKind::AlreadyExists => Ok(false),
            io::ErrorKind::CrossesDevices => Err(Obstacle::Mounted),
            _ => Ok(true),
        },
    }
}

// A file that was made at a path without links, and is locked. None where a file is there, or
// another program took this one for a leftover before it was locked.
fn made_locked(rt: &HostRuntime, claim: &ImageClaim, path: &str) -> Result<Option<File>, Obstacle> {
    let mode = match &claim.image {
        Some(_) => PRIVATE,
        None => ORDINARY,
    };
    match made(rt, path, mode) {
        Ok(file) => lock_made(rt, file, path),
        Err(error) if error.kind() == io::ErrorKind::AlreadyExists => Ok(None),
        Err(error) => Err(Obstacle::from(error)),
    }
}

// A file that was made, with this mode, where none was.
fn made(rt: &HostRuntime, path: &str, mode: u32) -> io::Result<File> {
    let mut options = OpenOptions::new();
    options.write(true).create_new(true).mode(mode);
    options.open(rt, path)
}

// A file that was just made, locked.
fn lock_made(rt: &HostRuntime, file: File, path: &str) -> Result<Option<File>, Obstacle> {
    match lock(rt, &file, path) {
        Ok(true) => Ok(Some(file)),
        Ok(false) => Ok(None),
        Err(error) => {
            let _ = fs::remove_file(rt, path);
            Err(Obstacle::from(error))
        }
    }
}

// The file at a path without links, locked. None where nothing is there, or another program has it.
fn left_at(rt: &HostRuntime, path: String) -> Result<Option<LeftFile>, LeftFault>
    ensures unread { IfErr result IsUnread }
{
    match locked_at(rt, path.as_str()) {
        Ok(Some(file)) => Ok(Some(LeftFile { path, file })),
        Ok(None) => Ok(None),
        Err(obstacle) => Err(LeftFault::Unread(path, obstacle)),
    }
}

// The same file, without its path.
fn locked_at(rt: &HostRuntime, path: &str) -> Result<Option<File>, Obstacle> {
    match regular_at(rt, path)? {
        Some(file) => match lock(rt, &file, path)? {
            true => Ok(Some(file)),
            false => Ok(None),
        },
        None => Ok(None),
    }
}

// The regular file at a path without links. None where nothing is there.
fn regular_at(rt: &HostRuntime, path: &str) -> Result<Option<File>, Obstacle> {
    // What is no file isn't opened.
    match is_file_at(rt, path) {
        Ok(true) => {}
        Ok(false) => return Err(Obstacle::NoFile),
        Err(error) => return none_there(error),
    }
    match open_to_change(rt, path) {
        Ok(file) => Ok(Some(file)),
        Err(error) => none_there(error),
    }
}

// None where an error says that nothing is at a path.
fn none_there(error: io::Error) -> Result<Option<File>, Obstacle> {
    match error.kind() {
        io::ErrorKind::NotFound => Ok(None),
        _ => Err(Obstacle::from(error)),
    }
}

// Whether a regular file is at a path without links.
fn is_file_at(rt: &HostRuntime, path: &str) -> io::Result<bool> {
    Ok(fs::symlink_metadata(rt, path)?.is_file())
}

// Gives a file beside an image the image's mode and owner, and its length.
fn prepare(
    alloc: Global,
    file: &mut File,
    claim: &ImageClaim,
    length: usize,
) -> Result<(), Obstacle> {
    if let Some(image) = &claim.image {
        keep_image_owner(file, image)?;
    }
    write_zeros(alloc, file, length)?;
    Ok(())
}

// Gives a file the owner, the group and the mode of an image.
fn keep_image_owner(file: &File, image: &File) -> Result<(), Obstacle> {
    let about = image.metadata()?;
    match keep_owner(file, &about) {
        Ok(()) => Ok(()),
        Err(_) => Err(Obstacle::NotKept),
    }
}

// Gives a file the owner, the group and the mode of another.
fn keep_owner(file: &File, other: &Metadata) -> io::Result<()> {
    let mine = file.metadata()?;
    if mine.uid() != other.uid() || mine.gid() != other.gid() {
        fchown(file, Some(other.uid()), Some(other.gid()))?;
    }
    file.set_permissions(other.permissions())
}

// Gives a file this many zeros, which are written, so that the disk has room for them then.
fn write_zeros(alloc: Global, file: &mut File, count: usize) -> io::Result<()> {
    match Vec::from_elem(alloc, 0, count.min(ZEROS_AT_ONCE)) {
        Ok(zeros) => write_in_pieces(file, zeros.as_slice(), count),
        Err(_) => write_in_pieces(file, &FEW_ZEROS, count),
    }
}

// Writes a piece until this many bytes were written, the last time as much of it as is left.
fn write_in_pieces(file: &mut File, piece: &[u8], count: usize) -> io::Result<()> {
    let mut left = count;
    for _ in 0..count.div_ceil(piece.len().max(1)) {
        let part = left.min(piece.len());
        file.write_all(&piece[..part])?;
        left = left.saturating_sub(part);
    }
    Ok(())
}

// Gives a file these bytes.
fn fill(file: &mut File, bytes: &[u8]) -> io::Result<()> {
    file.seek(SeekFrom::Start(0))?;
    file.write_all(bytes)?;
    file.set_len(bytes.len() as u64)
}

// Puts the file beside an image, which was filled, in the image's place. It stays where that fails.
fn put_filled(
    rt: &HostRuntime,
    claim: &ImageClaim,
    beside: BesideFile,
) -> Result<Placed, NotReplaced> {
    match put_in_place(rt, claim, &beside) {
        Ok(placed) => {
            drop(beside);
            Ok(placed)
        }
        Err(obstacle) => Err(NotReplaced {
            obstacle,
            kept: Some(beside.path),
        }),
    }
}

// Gives the file beside an image the image's name once its bytes are on the disk, where that still
// names what was claimed.
fn put_in_place(
    rt: &HostRuntime,
    claim: &ImageClaim,
    beside: &BesideFile,
) -> Result<Placed, Obstacle> {
    beside.file.sync_all()?;
    rename_over(rt, claim, beside)?;
    match sync_names(&beside.folder) {
        Ok(()) => Ok(Placed::Lasting),
        Err(_) => Ok(Placed::NotLasting),
    }
}

// Gives the file beside an image the image's name, where that still names what was claimed.
fn rename_over(rt: &HostRuntime, claim: &ImageClaim, beside: &BesideFile) -> Result<(), Obstacle> {
    if !is_as_claimed(rt, claim)? {
        return Err(Obstacle::Moved);
    }
    fs::rename(rt, beside.path.as_str(), claim.path.as_str())?;
    Ok(())
}

// Has the names of a folder on the disk, where its file system does that for a folder.
fn sync_names(folder: &File) -> io::Result<()> {
    match folder.sync_all() {
        Err(error) if error.kind() == io::ErrorKind::InvalidInput => Ok(()),
        answer => answer,
    }
}

// Whether the paths of a claim still lead to the file that was claimed, or still to none.
fn is_as_claimed(rt: &HostRuntime, claim: &ImageClaim) -> io::Result<bool> {
    let path = claim.path.as_str();
    match &claim.image {
        Some(image) => Ok(is_at(rt, image, path)? && is_led_to(rt, image, claim.given.as_str())?),
        None => match fs::symlink_metadata(rt, path) {
            Ok(_) => Ok(false),
            Err(error) => Ok(error.kind() == io::ErrorKind::NotFound),
        },
    }
}
