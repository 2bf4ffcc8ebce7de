#![tactic(auto)]
// A script on standard input, for the programs: steps one after another, each with an opening of so many bytes, and
// what the opening says that follows. Where a reader knows which bytes it has left, the contracts say which were read;
// what is printed is in no contract.
ghost use Rattle.std.specs.Prelude.{◌≡◌, ◌≤◌, ◌<◌, [], ⊤, length, take, Result, Some, Ok, IfSome, IfOk, OnErr};
ghost use Rattle.std.specs.Io.KnownBytes.{Consumes};
ghost use Rattle.script.specs.Whole.{KeepsOnErr};
ghost use Rattle.script.specs.declared.Stop.{Stop};
ghost use Rattle.script.specs.declared.Stop.TheVariants.{Failed};

use std::io;
use std::io::Read;

// Why a script goes no further: a step that is none, or an output that failed.
#[derive(Clone, Copy)]
pub enum Stop {
    BadStep,
    Failed(io::Error),
}

impl From<io::Error> for Stop {
    ghost from_gives = { λ error stop. stop ≡ Failed error };

    fn from(error: io::Error) -> Stop {
        Stop::Failed(error)
    }
}

// Reads so many bytes into the front of a room. It is a bad step where there is no room for so many, or fewer come.
pub fn read_front<R: Read>(input: &mut R, room: &mut [u8], count: usize) -> Result<(), Stop>
    ensures fits { IfOk result (λ _. count ≤ length room.new) }
    ensures taken { IfOk result
        (λ _. Consumes (R.remaining input.old) (R.remaining input.new) (take count room.new)) }
{
    if room.len() < count || fill::read_full(input, &mut room[..count]) < count {
        return Err(Stop::BadStep);
    }
    Ok(())
}

// What a program does at the steps of its script.
pub trait Steps {
    // Which states a step may leave behind it, by the one before it and its answer: any, where an impl says nothing.
    ghost step_gives: { Self → Result (Unit {0}) Stop → Self → Type 0 } = { λ _ _ _. ⊤ };

    // One step, whose opening was read; the rest of it, if it has more, comes next.
    fn step(&mut self, opening: &[u8], input: &mut impl Read, out: &impl Print) -> Result<(), Stop>
        ensures { step_gives self.old result self.new };

    // Every step of a script, the room for an opening being as long as each of its openings. The input's end before a
    // step begins is no step, and nothing is said; a step that is none is `bad step`, and ends the script.
    final fn run<R: Read>(
        &mut self,
        opening: &mut [u8],
        input: &mut R,
        out: &impl Print,
    ) -> io::Result<()>
        ensures none { R.remaining input.old ≡ Some []
            → (result ≡ Ok tt) × (self.new ≡ self.old) × (R.remaining input.new ≡ Some []) }
        ensures short { IfSome (R.remaining input.old)
            (λ left. length left < length opening.new → self.new ≡ self.old) }
    {
        // A proved loop has to end, and nothing says that a script does: it counts up to a number that no script
        // comes to.
        for _ in 0..u64::MAX {
            let got = fill::read_full(input, opening);
            if got == 0 {
                return Ok(());
            }
            if got < opening.len() {
                return out.write_all(b"bad step\n");
            }
            match self.step(opening, input, out) {
                Ok(()) => {}
                Err(Stop::BadStep) => return out.write_all(b"bad step\n"),
                Err(Stop::Failed(error)) => return Err(error),
            }
        }
        Ok(())
    }
}

// Steps of which one that is none, or fails, leaves the state as it stood. A type that has these has `Steps` by them.
pub trait WholeSteps {
    // As a step of `Steps`.
    fn step(&mut self, opening: &[u8], input: &mut impl Read, out: &impl Print) -> Result<(), Stop>
        ensures { OnErr result (self.new ≡ self.old) };
}

impl<S: WholeSteps> Steps for S {
    ghost step_gives = { KeepsOnErr };

    fn step(
        &mut self,
        opening: &[u8],
        input: &mut impl Read,
        out: &impl Print,
    ) -> Result<(), Stop> {
        WholeSteps::step(self, opening, input, out)
    }
}

#[cfg(test)]
mod tests {
    use super::*;

    // Counts the steps that it is told to do, those too that are none: it says nothing of what these leave.
    #[derive(Drop)]
    struct Counter {
        told: u8,
    }

    impl Steps for Counter {
        fn step(
            &mut self,
            opening: &[u8],
            input: &mut impl Read,
            out: &impl Print,
        ) -> Result<(), Stop> {
            self.told = self.told.saturating_add(1);
            read_front(input, &mut [0u8; 1], opening.len())
        }
    }

    // Counts the steps that were done.
    #[derive(Drop)]
    struct Tally {
        done: u8,
    }

    impl WholeSteps for Tally {
        fn step(
            &mut self,
            opening: &[u8],
            input: &mut impl Read,
            out: &impl Print,
        ) -> Result<(), Stop> {
            read_front(input, &mut [0u8; 1], opening.len())?;
            self.done = self.done.saturating_add(1);
            Ok(())
        }
    }

    // Two steps of an opening and a body of a byte each, and an opening that no body follows.
    const SCRIPT: [u8; 5] = [1, 7, 2, 9, 3];

    #[test]
    fn what_is_no_step_may_change_the_state(rt: HostRuntime) {
        let mut counter = Counter { told: 0 };
        let told = counter.run(&mut [0u8; 1], &mut &SCRIPT[..], &rt);
        assert!(rt; told.is_ok());
        assert_eq!(rt; counter.told, 3);
    }

    #[test]
    fn what_is_no_step_changes_nothing_of_whole_steps(rt: HostRuntime) {
        let mut tally = Tally { done: 0 };
        let told = tally.run(&mut [0u8; 1], &mut &SCRIPT[..], &rt);
        assert!(rt; told.is_ok());
        assert_eq!(rt; tally.done, 2);
    }
}
