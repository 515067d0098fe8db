//! Whole lists of events of the loading core, which a generator makes, and the guards of each.
use quick_cache_loading::protocol::{Answer, Core, Event, run};
use std::alloc::Global;
use std::test::Fail;
use test_tools::expect_eq;

/// The guards of a list: those given, those taken back, and those held at its end.
type Guards = (u64, u64, u64);

/// The next number of a generator.
fn next(seed: u64) -> u64 {
    seed.wrapping_mul(1_103_515_245).wrapping_add(12_345) % 2_147_483_648
}

/// An event, by its number.
fn event(number: u64) -> Event<u64> {
    match number {
        0 => Event::Create,
        1 => Event::Fill(7),
        2 => Event::Abandon,
        3 => Event::Leave,
        4 => Event::Join(1),
        5 => Event::Join(2),
        6 => Event::Take(1),
        7 => Event::Take(2),
        8 => Event::TimeOut(1),
        9 => Event::TimeOut(2),
        10 => Event::Cancel(1),
        _ => Event::Cancel(2),
    }
}

/// The numbers of a list: to begin, and then eight events more.
fn numbers(seed: &mut u64) -> [u64; 9] {
    let mut numbers = [0; 9];
    for at in 1..9 {
        *seed = next(*seed);
        numbers[at] = *seed / 65536 % 12;
    }
    numbers
}

/// What a new core's answers to a list say of its guards. A fill or an abandoned guard that comes
/// in time takes one back.
fn guards(alloc: Global, numbers: &[u64]) -> Result<Guards, Fail> {
    let mut events = Vec::new(alloc);
    for number in numbers {
        events.push(event(*number))?;
    }
    let mut core: Core<u64> = Core::new(alloc);
    let answers = run(&mut core, events)?;
    let (mut given, mut taken) = (0u64, 0u64);
    for (number, answer) in numbers.iter().zip(answers.iter()) {
        match answer {
            Answer::Created => given = given.saturating_add(1),
            Answer::Guard => given = given.saturating_add(1),
            Answer::NotNow => {}
            _ => {
                if *number == 1 || *number == 2 {
                    taken = taken.saturating_add(1);
                }
            }
        }
    }
    Ok((given, taken, u64::from(core.is_held())))
}

#[test]
fn guards_given_are_taken_back_or_held(rt: HostRuntime) -> Result<(), Fail> {
    let (mut seed, mut wrong) = (1, None);
    let mut all: Guards = (0, 0, 0);
    for _ in 0..5000 {
        let numbers = numbers(&mut seed);
        let (given, taken, held) = guards(rt.alloc(), &numbers)?;
        if given != taken.saturating_add(held) {
            wrong = Some(numbers);
        }
        all.0 = all.0.saturating_add(given);
        all.1 = all.1.saturating_add(taken);
        all.2 = all.2.saturating_add(held);
    }
    // The sums are those of another program, which has the core's table in another language.
    expect_eq!(rt; (wrong, all), (None, (5699, 4028, 1671)));
    Ok(())
}
