//! Tries of both cores beside the definition.
ghost use Rattle.std.specs.Prelude.{◌+◌, ◌≤◌};
ghost use Rattle.bus_timers.specs.Timings.{IsSound};
ghost use Rattle.bus_timers.specs.Wait.{longest_pass};

use bus_timers::{Core, CounterCore, DeadlineCore, History, JumpCore, Timing, may_start};
use std::alloc::{AllocError, Global};
use std::process::Abort;
use std::test::Fail;

/// Passes a core stretches of quiet and of carrier in turn, and compares it with the definition at each bit
/// time. It starts wherever it may, but for every third of these bit times. The answer has the starts.
fn starts_beside_the_definition(
    rt: &impl Abort,
    alloc: Global,
    timing: Timing,
    stretches: &[u16],
) -> Result<Vec<usize>, AllocError>
    requires { IsSound timing }
{
    let mut core = CounterCore::settled(timing);
    let mut past = vec![in alloc; false; timing.quiet as usize]?;
    let mut starts: Vec<usize> = Vec::new(alloc);
    let mut chances = 0u8;
    for (turn, bits) in stretches.iter().enumerate() {
        for _ in 0..*bits {
            let ready = core.ready();
            let last = starts.last().copied();
            assert!(rt;
                ready == may_start(timing, &past, last),
                "at {}",
                past.len()
            );
            if ready {
                chances = chances.wrapping_add(1);
                if chances % 3 != 0 {
                    core.started();
                    starts.push(past.len())?;
                }
            }
            let carrier = turn % 2 == 1;
            core.pass(carrier);
            past.push(carrier)?;
        }
    }
    assert!(rt; core.moves() == past.len().saturating_sub(timing.quiet as usize) as u64);
    Ok(starts)
}

/// The first start comes a terminal gap behind the settled synchronization gap. The second waits for the
/// interval, and then for eight quiet bit times, since the synchronization gap has elapsed long before. Behind
/// the second the gaps count one after the other: at 2063, after 9 and 7 quiet bit times, it may not start. At
/// 2076 it may and doesn't, and at 2077 it does.
#[test]
fn counters_answer_the_definition(rt: HostRuntime) -> Result<(), Fail> {
    let timing = Timing {
        ti: 1000,
        sg: 9,
        tg: 8,
        quiet: 9,
        due: 0,
    };
    let stretches = [8, 24, 970, 10, 7, 1, 8, 1010, 16, 5, 20];
    let starts = starts_beside_the_definition(&rt, rt.alloc(), timing, &stretches)?;
    assert_eq!(rt; starts.as_slice(), [17, 1037, 2077].as_slice());
    Ok(())
}

/// In periodic mode the quiet is longer, and the offset decides about the first start.
#[test]
fn an_offset_delays_the_first_start(rt: HostRuntime) -> Result<(), Fail> {
    let timing = Timing {
        ti: 1200,
        sg: 30,
        tg: 20,
        quiet: 50,
        due: 90,
    };
    let starts = starts_beside_the_definition(&rt, rt.alloc(), timing, &[99, 60, 1200])?;
    assert_eq!(rt; starts.as_slice(), [140, 1340].as_slice());
    Ok(())
}

/// Starts the core if it needn't wait, and passes it a stretch. It waits so long then.
fn waits_behind<C: JumpCore>(rt: &impl Abort, core: &mut C, carrier: bool, bits: u64, wait: u64)
    requires few { bits ≤ longest_pass }
    requires room { bits ≤ C.room core.old }
    ensures { C.room core.old ≤ C.room core.new + bits }
{
    if core.wait() == 0 {
        assert!(rt; core.ready());
        core.started();
    }
    core.pass_many(carrier, bits);
    assert_eq!(rt; core.wait(), wait);
}

/// The interval is 1000, the synchronization gap 9, the terminal gap 8. Carrier in the terminal gap begins that gap
/// anew, and carrier in the synchronization gap both of them. The longest pass of all comes last.
#[test]
fn stretches_are_passed_at_once(rt: HostRuntime) -> Result<(), Fail> {
    let mut core = DeadlineCore::settled(Timing {
        ti: 1000,
        sg: 9,
        tg: 8,
        quiet: 9,
        due: 0,
    });
    waits_behind(&rt, &mut core, false, 3, 5);
    waits_behind(&rt, &mut core, true, 1, 8);
    waits_behind(&rt, &mut core, false, 8, 0);
    waits_behind(&rt, &mut core, true, 40, 960);
    waits_behind(&rt, &mut core, false, 950, 10);
    waits_behind(&rt, &mut core, true, 9, 8);
    waits_behind(&rt, &mut core, false, 8, 0);
    waits_behind(&rt, &mut core, true, 990, 17);
    waits_behind(&rt, &mut core, false, 8, 9);
    waits_behind(&rt, &mut core, true, 1, 17);
    waits_behind(&rt, &mut core, false, 9, 8);
    waits_behind(&rt, &mut core, false, 1_099_511_627_776, 0);
    assert_eq!(rt; core.moves(), 12);
    Ok(())
}

/// A message of its own and five quiet bit times, and then a message of another and three.
#[test]
fn a_history_is_heard_at_once(rt: HostRuntime) -> Result<(), Fail> {
    let mut core = DeadlineCore::settled(Timing {
        ti: 1000,
        sg: 9,
        tg: 8,
        quiet: 9,
        due: 0,
    });
    core.started();
    core.hear(History {
        bits: 990,
        quiet: 5,
        synchronized: false,
    });
    let wait = core.wait();
    core.hear(History {
        bits: 40,
        quiet: 3,
        synchronized: true,
    });
    assert_eq!(rt; (wait, core.wait(), core.moves()), (12, 5, 2));
    Ok(())
}
