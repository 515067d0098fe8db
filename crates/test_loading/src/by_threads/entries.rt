//! What entry calls answer.
use crate::by_threads::asking::{Call, Choice, answers};
use crate::schedules::steps::{Step, Told};

#[test]
fn an_entry_stays_goes_and_is_loaded_anew(rt: HostRuntime) {
    answers(
        &rt,
        100,
        &[
            (Call::ActAs(0, Choice::Raise), Told::Guard),
            (Call::Step(Step::Fill(0, 42)), Told::Done),
            (Call::ActAs(0, Choice::RemoveSmall), Told::Removed(42)),
            (Call::Step(Step::Insert(1, 10)), Told::Done),
            (Call::ActAs(1, Choice::Raise), Told::Retained(11)),
            (Call::ActAs(1, Choice::Replace), Told::Replaced(11)),
            (Call::ActAs(1, Choice::Raise), Told::Timeout),
            (Call::Step(Step::Fill(0, 130)), Told::Done),
            (Call::ActAs(1, Choice::RemoveSmall), Told::Retained(130)),
            (Call::ActAs(0, Choice::Raise), Told::Guard),
            (Call::Step(Step::LetGo(0)), Told::Done),
            (Call::Step(Step::Get(0)), Told::Nothing),
            (Call::Step(Step::Count), Told::Count(1)),
        ],
    );
}
