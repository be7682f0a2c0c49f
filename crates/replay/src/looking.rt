//! What is looked at.
use crate::commands::{Asked, Look};
use crate::counting::tell_recount;
use crate::party::Played;
use crate::text::Text;
use crate::words::{block_of, frame_of, place_of};
use codec::{Entry, Inode, Pair, Status, Triple};
use s4_types::{Ptr, Refusal};

fn tell_row<D: Played>(text: &mut Text, drive: &mut D, object: u64) {
    let Some(row) = drive.row(object) else {
        text.word("none");
        return;
    };
    text.fields(&[
        ("created", row.created.number()),
        ("bytes", row.journal_bytes as u64),
    ]);
    match row.checkpoint {
        Some(_) => text.named("checkpoint", row.checkpoint_moment.number()),
        None => text.word("checkpoint none"),
    }
    tell_head(text, row.head);
    text.named("stamp", row.stamp);
}

fn tell_head(text: &mut Text, head: Option<Ptr>) {
    text.word("head ");
    match head {
        Some(_) => text.place(head),
        None => text.mark("none"),
    }
}

fn tell_moments(text: &mut Text, entries: &[Entry]) {
    if entries.is_empty() {
        text.word("none");
    }
    for entry in entries {
        text.number(entry.moment().number());
    }
}

/// Tells what was and what is, with `>` between them.
pub(crate) fn tell_change(text: &mut Text, before: u64, after: u64) {
    text.number(before);
    text.mark(">");
    text.digits(after);
}

fn yes_or_no(is_so: bool) -> &'static str {
    if is_so { "yes" } else { "no" }
}

fn tell_status(text: &mut Text, before: Status, after: Status) {
    text.word("alive");
    text.word(yes_or_no(before.alive));
    text.mark(">");
    text.mark(yes_or_no(after.alive));
    text.word("size");
    tell_change(text, before.size as u64, after.size as u64);
    text.word("changed");
    tell_change(text, before.changed.number(), after.changed.number());
}

fn tell_pair(text: &mut Text, pair: &Pair) {
    text.named_bytes("attribute", pair.before.as_slice());
    text.mark(">");
    text.joined_bytes(pair.after.as_slice());
}

fn tell_triple(text: &mut Text, triple: &Triple) {
    text.number(triple.index as u64);
    text.mark(":");
    text.place(triple.before);
    text.mark(">");
    text.place(triple.after);
}

fn tell_entry(text: &mut Text, entry: Option<&Entry>) {
    let Some(entry) = entry else {
        text.word("none");
        return;
    };
    text.named("moment", entry.moment().number());
    tell_status(text, entry.before(), entry.after());
    if let Some(pair) = entry.pair() {
        tell_pair(text, &pair);
    }
    for triple in entry.triples() {
        tell_triple(text, triple);
    }
}

fn tell_above<D: Played>(text: &mut Text, drive: &mut D, object: u64) {
    match drive.above(object) {
        Some(next) => text.number(next.number()),
        None => text.word("none"),
    }
}

fn tell_inode<D: Played>(text: &mut Text, drive: &mut D, object: u64, at: u64) {
    match drive.inode(object, at) {
        Some(inode) => {
            tell_fields(text, &inode);
            drop(inode);
        }
        None => text.word("none"),
    }
}

fn tell_fields(text: &mut Text, inode: &Inode) {
    text.word(if inode.alive { "live" } else { "dead" });
    text.fields(&[
        ("size", inode.size as u64),
        ("created", inode.created.number()),
        ("changed", inode.changed.number()),
    ]);
    text.named_bytes("attribute", inode.attribute.as_slice());
    tell_pointers(text, &inode.pointers);
}

fn tell_distance<D: Played>(
    text: &mut Text,
    drive: &mut D,
    object: u64,
    at: u64,
) -> Result<(), Refusal> {
    match drive.inode_counted(object, at)? {
        Some((inode, entries)) => {
            drop(inode);
            text.number(entries as u64);
        }
        None => text.word("none"),
    }
    Ok(())
}

fn tell_pointers(text: &mut Text, pointers: &[Option<Ptr>]) {
    let mut index = 0u64;
    for pointer in pointers {
        if pointer.is_some() {
            text.number(index);
            text.mark(":");
            text.place(*pointer);
        }
        index = index.saturating_add(1);
    }
}

fn tell_held<D: Played>(
    text: &mut Text,
    drive: &mut D,
    object: u64,
    frame: u64,
) -> Result<(), Refusal> {
    let places = drive.held(object, frame_of(frame))?;
    if places.is_empty() {
        text.word("none");
    }
    for place in places.as_slice() {
        text.number(place.block() as u64);
    }
    Ok(())
}

fn tell_frame<D: Played>(text: &mut Text, drive: &mut D, frame: u64) {
    let Some(generation) = drive.generation(frame_of(frame)) else {
        text.word("none");
        return;
    };
    text.named("generation", generation as u64);
    if drive.is_draining(frame_of(frame)) {
        text.word("emptied");
    }
}

fn tell_word<D: Played>(text: &mut Text, drive: &mut D, frame: u64) {
    match drive.word(frame_of(frame)) {
        Some(word) => text.long_hex(word),
        None => text.word("none"),
    }
}

fn tell_chosen<D: Played>(text: &mut Text, drive: &mut D) -> Result<(), Refusal> {
    match drive.chosen()? {
        Some(chosen) => {
            text.number(chosen.frame as u64);
            text.number(chosen.object.number());
        }
        None => text.word("none"),
    }
    Ok(())
}

/// Looks at one number of the drive.
fn look_at_drive<D: Played>(drive: &D, look: Look) -> u64 {
    let numbers = drive.numbers();
    match look {
        Look::Clock => numbers.clock,
        Look::Floor => numbers.floor,
        Look::Window => numbers.window,
        Look::Next => numbers.next,
        _ => numbers.room,
    }
}

/// Looks at a frame, or at one of its blocks.
fn look_at_frame<D: Played>(text: &mut Text, drive: &mut D, look: Look, numbers: [u64; 3]) {
    let [frame, block, _] = numbers;
    match look {
        Look::Frame => tell_frame(text, drive, frame),
        Look::Word => tell_word(text, drive, frame),
        Look::Places => text.number(drive.places(frame_of(frame), block_of(block)) as u64),
        _ => text.number(drive.held_count(frame_of(frame)) as u64),
    }
}

/// Looks at an object.
fn look_at_object<D: Played>(
    drive: &mut D,
    look: Look,
    asked: &Asked<'_>,
    text: &mut Text,
) -> Result<(), Refusal> {
    let [object, second, third] = asked.numbers;
    match look {
        Look::Sees => text.word(yes_or_no(drive.sees(object, second, third))),
        Look::Above => tell_above(text, drive, object),
        Look::Row => tell_row(text, drive, object),
        Look::Inode => tell_inode(text, drive, object, second),
        Look::Distance => return tell_distance(text, drive, object, second),
        Look::Held => return tell_held(text, drive, object, second),
        _ => return look_at_entries(text, drive, look, object, second),
    }
    Ok(())
}

/// Looks at an object's entries, or at one of them by its number.
fn look_at_entries<D: Played>(
    text: &mut Text,
    drive: &mut D,
    look: Look,
    object: u64,
    number: u64,
) -> Result<(), Refusal> {
    let entries = drive.entries(object)?;
    match look {
        // (they are numbered from 1 on)
        Look::Entry => tell_entry(text, entries.get(place_of(number.wrapping_sub(1)))),
        Look::LastEntry => tell_entry(text, entries.last()),
        Look::Entries => tell_moments(text, entries.as_slice()),
        _ => text.number(entries.len() as u64),
    }
    Ok(())
}

/// Looks at something.
pub(crate) fn perform_look<D: Played>(
    drive: &mut D,
    look: Look,
    asked: &Asked<'_>,
    text: &mut Text,
) -> Result<(), Refusal> {
    match look {
        Look::Clock | Look::Floor | Look::Window | Look::Next | Look::Room => {
            text.number(look_at_drive(drive, look));
            Ok(())
        }
        Look::Frame | Look::Word | Look::Places | Look::HeldCount => {
            look_at_frame(text, drive, look, asked.numbers);
            Ok(())
        }
        Look::Recount => tell_recount(text, drive),
        Look::Chosen => tell_chosen(text, drive),
        Look::Rules => {
            drive.rules();
            text.done(true);
            Ok(())
        }
        _ => look_at_object(drive, look, asked, text),
    }
}
