//! The commands, as `--help` prints them.

/// Each command with what stands behind its name, and what it does.
pub const HELP: &str = "\
cache ITEMS WEIGHT: makes a cache of so many items, of so much weight in all
cache ITEMS WEIGHT HOT GHOST: the same, with the shares of hot items and of ghosts, by million
cache ITEMS WEIGHT HOT GHOST MARK: the same, with the greatest mark of an item
insert KEY VALUE: puts a pair in
replace KEY VALUE: puts a pair in the place of the one that stands under its key
soft KEY VALUE: the same, and does not count as a use
get KEY: shows the value
peek KEY: shows the value, and does not count as a use
set KEY VALUE: writes the value where it stands
poke KEY VALUE: the same, and does not count as a use
remove KEY: takes the item out
removeif KEY VALUE: takes the item out where it has this value
load KEY VALUE: shows the value, or loads this one
fail KEY: shows the value, or begins to load it and fails
guard KEY VALUE: shows the value, or takes a guard and fills it with this one
drop KEY: shows the value, or takes a guard and drops it
capacity WEIGHT: sets how much the items may weigh
clear: takes all items out
stats KEY: shows how often the item was read
hits: shows how many look-ups found an item, and how many found none
show: shows both rings, the ghosts, what weighs nothing, and the counts
";
