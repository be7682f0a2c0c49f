//! The commands of the program and their arguments, in the order of their help.
use s4d_command::arguments::Argument::{Flag, NeededValue, OptionalWord, Value, Values, Word};
use s4d_command::arguments::{Argument, CommandRow};

/// The operand of an image.
const IMAGE: Argument = Word("image", "IMAGE", "The file of a drive");

/// The operand of a folder.
const FOLDER: Argument = Word("folder", "DIR", "The folder");

/// A `--json` of what prints lines.
const JSON: Argument = Flag("json", "Prints one JSON object a line");

/// A `--json` where all that is printed is one object.
const ONE_JSON: Argument = Flag("json", "Prints one JSON object");

/// An `--at` that need not be given.
const AT: Argument = Value("at", "M", "At this moment, in place of the clock's");

/// Each `--moments`.
const MOMENTS: Argument = Flag(
    "moments",
    "Prints moments as numbers, also where they are dates",
);

/// An `--object` that may be given once.
const OBJECT: Argument = Value("object", "O", "Of this object alone");

/// A `--name` beside an `--object`.
const NAME: Argument = Value(
    "name",
    "TEXT",
    "Of the one object alone whose attribute is this text",
);

/// A `--since` of what is printed by ascending moment.
const SINCE: Argument = Value("since", "M", "From this moment on");

/// Its `--until`.
const UNTIL: Argument = Value("until", "M", "Up to this moment");

/// Its `--limit`.
const LIMIT: Argument = Value("limit", "N", "At most N changes");

/// The commands.
pub(crate) const ROWS: &[CommandRow] = &[
    CommandRow {
        name: "list",
        about: "Prints the objects that are live, by ascending number",
        arguments: &[
            AT,
            Flag("deleted", "Also those that were deleted before"),
            Flag(
                "versions",
                "Each with all its versions up to the moment; with --json",
            ),
            Flag(
                "contents",
                "Each version with all its bytes, in hex; with --versions",
            ),
            MOMENTS,
            JSON,
            IMAGE,
        ],
    },
    CommandRow {
        name: "log",
        about: "Prints what was changed, by ascending moment",
        arguments: &[
            OBJECT,
            NAME,
            SINCE,
            UNTIL,
            Value(
                "kind",
                "KIND",
                "Changes of this kind: made, deleted, written, cut, lengthened, attribute or touched",
            ),
            LIMIT,
            Flag("by-object", "By ascending object, and then by moment"),
            Flag("reverse", "In the opposite order"),
            Flag(
                "stat",
                "Prints one line an object: how many changes, and when",
            ),
            MOMENTS,
            JSON,
            IMAGE,
        ],
    },
    CommandRow {
        name: "audit",
        about: "Prints what was accepted, by ascending moment",
        arguments: &[
            OBJECT,
            SINCE,
            UNTIL,
            Value(
                "kind",
                "KIND",
                "Of this kind: create, delete, write, truncate, setattr, setwindow, flush or flusho",
            ),
            LIMIT,
            MOMENTS,
            JSON,
            IMAGE,
        ],
    },
    CommandRow {
        name: "cat",
        about: "Prints the bytes of an object",
        arguments: &[
            AT,
            Value(
                "name",
                "TEXT",
                "The one object whose attribute is this text, in place of OBJECT",
            ),
            IMAGE,
            OptionalWord("object", "OBJECT", "The number of an object"),
        ],
    },
    CommandRow {
        name: "info",
        about: "Prints the numbers of an image",
        arguments: &[MOMENTS, ONE_JSON, IMAGE],
    },
    CommandRow {
        name: "diff",
        about: "Prints what differs between two moments",
        arguments: &[
            OBJECT,
            NAME,
            Flag("patch", "Also the bytes that differ"),
            Flag(
                "text",
                "Also the lines that differ, where both versions are text",
            ),
            Flag("raw", "Lines as they are, with what terminals obey"),
            MOMENTS,
            JSON,
            IMAGE,
            Word("from", "FROM", "The first moment"),
            OptionalWord(
                "to",
                "TO",
                "The other moment; the clock's where it isn't given",
            ),
        ],
    },
    CommandRow {
        name: "export",
        about: "Writes the bytes of each object into a folder, with a manifest",
        arguments: &[AT, IMAGE, FOLDER],
    },
    CommandRow {
        name: "restore",
        about: "Makes the present what it was at a moment",
        arguments: &[
            NeededValue("at", "M", "The moment"),
            Values("object", "O", "This object alone; may be given again"),
            NAME,
            Value(
                "map",
                "FILE",
                "What an earlier restore printed: objects that it made anew are taken for the old ones",
            ),
            Flag("dry-run", "Prints what would be done, and does nothing"),
            Flag(
                "flush",
                "Where a journal is full, hides the fewest of its versions",
            ),
            Flag("skip", "Leaves out objects that can't be restored"),
            Flag(
                "keep-newer",
                "Keeps objects that were made since the moment",
            ),
            Flag("to-nothing", "Restores also where no object is left"),
            Value(
                "leap",
                "DURATION",
                "Restores though the image's clock is this much earlier: 90s, 15m, 2h, 30d or 4w",
            ),
            JSON,
            IMAGE,
        ],
    },
    CommandRow {
        name: "check",
        about: "Reads every version that can be read",
        arguments: &[ONE_JSON, IMAGE],
    },
    CommandRow {
        name: "compact",
        about: "Cleans a drive, and gathers what is scattered",
        arguments: &[ONE_JSON, IMAGE],
    },
    CommandRow {
        name: "copy",
        about: "Makes another image of the same versions, in fewer or more frames or without some objects",
        arguments: &[
            Value("frames", "N", "In this many frames, 24 to 1024"),
            Values(
                "without",
                "OBJECT",
                "Without this object and its past; may be given again",
            ),
            Value(
                "without-created-since",
                "M",
                "Without the objects that were made at this moment or later",
            ),
            ONE_JSON,
            IMAGE,
            Word("copy", "NEW", "The new image's file, which isn't there yet"),
        ],
    },
    CommandRow {
        name: "salvage",
        about: "Writes what a damaged image still has of each object into a folder",
        arguments: &[ONE_JSON, IMAGE, FOLDER],
    },
    CommandRow {
        name: "report",
        about: "Prints a page for browsers: the objects, what was changed, and what differs",
        arguments: &[
            Value(
                "since",
                "M",
                "Differences since this moment, in place of the first that can be read",
            ),
            IMAGE,
        ],
    },
];
