//! Rows of calls for the cache that threads share, made by one thread.

/// A call with numbers for keys and values. A key that is loaded is below ten. A value weighs its last two digits,
/// and is plain from 400 on.
#[derive(Clone, Copy)]
pub(crate) enum Step {
    Insert(u64, u64),
    TryInsert(u64, u64),
    Replace(u64, u64),
    Get(u64),
    TryGet(u64),
    Peek(u64),
    TryPeek(u64),
    Contains(u64),
    Stats(u64),
    Remove(u64),
    Reserve(usize),
    SetCapacity(u64),
    Clear,
    /// Keeps the items of even keys.
    Retain,
    /// Asks for the value or the guard, with no time to wait. A guard is kept.
    Guard(u64),
    /// Asks for the same, and waits for a millisecond.
    Wait(u64),
    /// Fills the guard that came last.
    Fill(u64),
    /// Drops it.
    Abandon,
    /// Loads a value where there is none; the loader fails where there is none to give.
    Load(u64, Option<u64>),
    /// The same by a task.
    LoadTask(u64, u64),
    /// Adds to the value, and keeps the item.
    Entry(u64, u64),
    /// The same by a task.
    EntryTask(u64, u64),
    /// Keeps the item, and waits for a millisecond where its key is being loaded.
    EntryWait(u64),
    EntryRemove(u64),
    /// Takes the item's value for a guard.
    EntryReplace(u64),
    /// A task asks for the value or the guard. It is kept, and so is a guard.
    Poll(u64),
    /// The task that came last, which asked for this key, is polled again.
    PollAgain(u64),
    /// That task is dropped.
    DropTask,
    /// A walk to its end.
    Walk,
    /// A drain to its end.
    Drain,
}

/// What a row shows, the items and the weight of its cache, and its calls.
pub(crate) type Row<'r> = (&'static str, usize, u64, &'r [Step]);

/// The rows.
pub(crate) const ROWS: [Row<'static>; 14] = [
    (
        "calls that write and read",
        100,
        100,
        &[
            Step::Insert(1, 401),
            Step::TryInsert(2, 501),
            Step::Insert(3, 601),
            Step::Get(3),
            Step::TryGet(1),
            Step::Peek(2),
            Step::Replace(2, 701),
            Step::Replace(9, 401),
            Step::Walk,
            Step::Remove(1),
            Step::Remove(7),
            Step::SetCapacity(40),
            Step::Reserve(50),
            Step::Clear,
            Step::Insert(4, 401),
        ],
    ),
    (
        "items leave and ghosts come back",
        3,
        3,
        &[
            Step::Insert(1, 401),
            Step::Insert(2, 401),
            Step::Get(2),
            Step::Insert(3, 401),
            Step::Insert(4, 401),
            Step::Insert(5, 401),
            Step::Get(5),
            Step::Insert(3, 401),
            Step::Insert(6, 401),
            Step::Guard(7),
            Step::Reserve(40),
            Step::Fill(401),
            Step::Load(8, Some(401)),
            Step::Guard(4),
            Step::Fill(401),
        ],
    ),
    (
        "loads and room beside ghosts",
        4,
        4,
        &[
            Step::Insert(1, 401),
            Step::Insert(2, 401),
            Step::Insert(3, 401),
            Step::Insert(4, 401),
            Step::Insert(5, 401),
            Step::Insert(6, 401),
            Step::Guard(7),
            Step::Insert(5, 401),
            Step::Reserve(60),
            Step::Fill(401),
        ],
    ),
    (
        "items are kept by a test, beside ghosts and a guard",
        3,
        3,
        &[
            Step::Insert(1, 401),
            Step::Insert(2, 401),
            Step::Insert(3, 401),
            Step::Insert(4, 401),
            Step::Guard(5),
            Step::Retain,
            Step::TryPeek(4),
            Step::TryPeek(1),
            Step::Insert(3, 401),
            Step::Fill(501),
            Step::Retain,
            Step::Walk,
        ],
    ),
    (
        "pins, and values that lose their weight",
        5,
        5,
        &[
            Step::Insert(1, 201),
            Step::Insert(2, 101),
            Step::Insert(3, 301),
            Step::Insert(4, 350),
            Step::Insert(5, 401),
            Step::Insert(6, 401),
            Step::Insert(7, 402),
            Step::Walk,
        ],
    ),
    (
        "a guard whose placeholder is cleared away",
        8,
        8,
        &[
            Step::Guard(1),
            Step::Clear,
            Step::Insert(2, 401),
            Step::Fill(501),
            Step::Get(1),
            Step::Get(2),
        ],
    ),
    (
        "an insert over a placeholder",
        8,
        8,
        &[
            Step::Guard(1),
            Step::Insert(1, 401),
            Step::Abandon,
            Step::Get(1),
        ],
    ),
    (
        "two guards of one key",
        8,
        8,
        &[
            Step::Guard(1),
            Step::Remove(1),
            Step::Guard(1),
            Step::Fill(601),
            Step::Fill(501),
            Step::Get(1),
        ],
    ),
    (
        "waits that end by time",
        100,
        100,
        &[
            Step::Guard(1),
            Step::EntryWait(1),
            Step::Wait(1),
            Step::Guard(1),
            Step::Fill(401),
            Step::Wait(1),
            Step::EntryWait(1),
        ],
    ),
    (
        "entries stay, go and are loaded anew",
        100,
        100,
        &[
            Step::Entry(0, 1),
            Step::Fill(442),
            Step::Entry(0, 1),
            Step::EntryRemove(0),
            Step::Insert(1, 410),
            Step::EntryReplace(1),
            Step::Fill(430),
            Step::EntryTask(1, 1),
            Step::EntryTask(2, 1),
            Step::Abandon,
        ],
    ),
    (
        "loads that fail and loads that give",
        100,
        100,
        &[
            Step::Load(4, None),
            Step::Load(4, Some(404)),
            Step::Load(4, Some(405)),
            Step::LoadTask(5, 401),
            Step::LoadTask(5, 402),
            Step::Guard(4),
        ],
    ),
    (
        "a guard is handed from task to task",
        100,
        100,
        &[
            Step::Guard(1),
            Step::Poll(1),
            Step::Poll(1),
            Step::Abandon,
            Step::DropTask,
            Step::PollAgain(1),
            Step::Fill(409),
            Step::Get(1),
        ],
    ),
    (
        "a task gets the value",
        8,
        8,
        &[
            Step::Guard(1),
            Step::Poll(1),
            Step::Fill(407),
            Step::PollAgain(1),
            Step::Poll(1),
            Step::Poll(2),
            Step::Fill(408),
            Step::Drain,
        ],
    ),
    (
        "tasks that wait for a key that is cleared away",
        8,
        8,
        &[
            Step::Guard(1),
            Step::Poll(1),
            Step::Clear,
            Step::Fill(405),
            Step::PollAgain(1),
            Step::Get(1),
        ],
    ),
];
