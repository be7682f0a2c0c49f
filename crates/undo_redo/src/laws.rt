//! Laws of links and runs, for the layers above: each function does nothing, and its contract is
//! the law.

ghost use Rattle.std.specs.Prelude.{◌≡◌, ◌↔◌, ℕ, ◌≤◌, ◌++◌, true, List, length, map, None};
ghost use Rattle.std.specs.List.{AllByRecursion};
ghost use Rattle.s4_types.specs.declared.limits.TheConstants.{OBJECT_BLOCKS, CHANGE_ENTRIES};
ghost use Rattle.codec.specs.declared.inodes.Inode.{Inode};
ghost use Rattle.codec.specs.Checkpoint.{pointer_at};
ghost use Rattle.codec.specs.Entry.{EntryFields, entry_length, entry_rules, pair_length};
ghost use Rattle.undo_redo.specs.Linked.{Linked, StandsBefore, StandsAfter};
ghost use Rattle.undo_redo.specs.Redone.{redone, undone};
ghost use Rattle.undo_redo.specs.Runs.{Run, redone_all, undone_all, inode_after, entries_by};
ghost use Rattle.undo_redo.specs.Runs.{entries_past, AllBy, AllPast, blank, moments_ascend_from};
ghost use Rattle.undo_redo.specs.Runs.{AllAt};
ghost use Rattle.undo_redo.specs.Groups.{grouped};
ghost use Rattle.undo_redo.specs.Between.{CanLead, pair_between, triples_between, entries_between};
ghost use Rattle.undo_redo.specs.Between.{AreOf};
ghost use Rattle.undo_redo.specs.Sizes.{entry_sizes};
ghost use Rattle.undo_redo.specs.Laws.{ALaterEntryIsUndone, ThePresentInodeIsLast};

/// An entry links two inodes exactly where its values before are the first one's and the second is
/// the first with the entry redone; and likewise backward. So either inode determines the other.
pub fn a_link_is_an_entry_redone_or_undone()
    ensures forth { (i j : Inode) (e : EntryFields)
        → Linked i e j ↔ StandsBefore i e × (j ≡ redone e i) }
    ensures back { (i j : Inode) (e : EntryFields)
        → Linked i e j ↔ StandsAfter e j × (i ≡ undone e j) }
    ensures next { (i j k : Inode) (e : EntryFields) → Linked i e j → Linked i e k → j ≡ k }
    ensures previous { (i j k : Inode) (e : EntryFields) → Linked i e k → Linked j e k → i ≡ j }
{}

/// The entries of a run determine it.
///
/// It ends where redoing its entries ends, and begins where undoing them ends. A run of joined
/// lists is a run of each, with one inode between them, and its object has one moment of its
/// making. The inode current at a moment: all entries done; later entries change nothing; from the
/// last moment on nothing changes.
pub fn entries_determine_a_run()
    ensures end { (i j : Inode) (entries : List EntryFields) → Run i entries j
        → j ≡ redone_all entries i }
    ensures beginning { (i j : Inode) (entries : List EntryFields) → Run i entries j
        → i ≡ undone_all entries j }
    ensures join { (i j k : Inode) (front back : List EntryFields) → Run i front j → Run j back k
        → Run i (front ++ back) k }
    ensures part { (i k : Inode) (front back : List EntryFields) → Run i (front ++ back) k
        → Run i front (redone_all front i) × Run (redone_all front i) back k }
    ensures joined { (i : Inode) (front back : List EntryFields)
        → redone_all (front ++ back) i ≡ redone_all back (redone_all front i) }
    ensures making { (i j : Inode) (entries : List EntryFields) → Run i entries j
        → i.created ≡ j.created }
    ensures done { (i : Inode) (entries : List EntryFields) (t : ℕ) → AllBy t entries
        → inode_after i entries t ≡ redone_all entries i }
    ensures later { (i : Inode) (entries later : List EntryFields) (t : ℕ) → AllPast t later
        → inode_after i (entries ++ later) t ≡ inode_after i entries t }
    ensures since { (i : Inode) (entries : List EntryFields) (m t : ℕ) → AllBy m entries → m ≤ t
        → inode_after i entries t ≡ inode_after i entries m }
    ensures shown { (i : Inode) (front back : List EntryFields) (t : ℕ)
        → inode_after i (front ++ back) t ≡ inode_after (inode_after i front t) back t }
{}

/// Groups part at a moment.
///
/// Groups stay groups where lists of entries are parted, and where the second list is later than
/// the first; and their moments don't descend. Where moments don't descend, the inode current at a
/// moment is the one of the run that comes after the last entry up to the moment: the run's last
/// one where no entry is later. Where the last entry is later, the run without it ends with the
/// entry undone, and the inode current at the moment is the same one.
pub fn groups_part_at_a_moment()
    ensures join { (m : ℕ) (front back : List EntryFields) → grouped front ≡ true
        → grouped back ≡ true → AllBy m front → AllPast m back → grouped (front ++ back) ≡ true }
    ensures front { (front back : List EntryFields)
        → grouped (front ++ back) ≡ true → grouped front ≡ true }
    ensures back { (front back : List EntryFields)
        → grouped (front ++ back) ≡ true → grouped back ≡ true }
    ensures ascend { (entries : List EntryFields) → grouped entries ≡ true
        → moments_ascend_from 0 entries ≡ true }
    ensures parts { (entries : List EntryFields) (low t : ℕ)
        → moments_ascend_from low entries ≡ true
        → entries ≡ entries_by t entries ++ entries_past t entries }
    ensures before { (i k : Inode) (entries : List EntryFields) (low t : ℕ)
        → moments_ascend_from low entries ≡ true → Run i entries k
        → Run i (entries_by t entries) (inode_after i entries t) }
    ensures after { (i k : Inode) (entries : List EntryFields) (low t : ℕ)
        → moments_ascend_from low entries ≡ true → Run i entries k
        → Run (inode_after i entries t) (entries_past t entries) k }
    ensures undone { ALaterEntryIsUndone }
    ensures stays { ThePresentInodeIsLast }
{}

/// A blank inode has `OBJECT_BLOCKS` pointers, each a hole.
pub fn a_blank_inode_has_holes_alone()
    ensures count { (created : ℕ) → length (blank created).pointers ≡ OBJECT_BLOCKS }
    ensures holes { (created n : ℕ) → pointer_at (blank created) n ≡ None }
{}

/// The entries between two inodes lead from the one to the other and keep the rules of entries and
/// of groups. They are at least one and at most three, of the moment, tell no pointers but those of
/// the two inodes, and have as many bytes as the numbers of their parts tell.
pub fn the_entries_between_two_inodes()
    ensures run { (i j : Inode) (m : ℕ) → CanLead i j m → Run i (entries_between i j m) j }
    ensures group { (i j : Inode) (m : ℕ) → CanLead i j m → grouped (entries_between i j m) ≡ true }
    ensures rules { (i j : Inode) (m : ℕ) → CanLead i j m
        → AllByRecursion (λ e. entry_rules e ≡ true) (entries_between i j m) }
    ensures moments { (i j : Inode) (m : ℕ) → AllAt m (entries_between i j m) }
    ensures count { (i j : Inode) (m : ℕ)
        → (1 ≤ length (entries_between i j m)) × (length (entries_between i j m) ≤ CHANGE_ENTRIES) }
    ensures pointers { (i j : Inode) (m : ℕ)
        → AllByRecursion (λ e. AreOf i j e.triples) (entries_between i j m) }
    ensures sizes { (i j : Inode) (m : ℕ)
        → map entry_length (entries_between i j m)
        ≡ entry_sizes (length (triples_between i j))
        (pair_length (pair_between i.attribute j.attribute)) }
    ensures few { (i j : Inode) → length (triples_between i j) ≤ OBJECT_BLOCKS }
{}
