// The run of a schedule in memory.
ghost use Rattle.std.specs.Prelude.{ℕ, List, IfOk};
ghost use Rattle.pv_model.specs.Events.{Schedule};
ghost use Rattle.pv_model.specs.Schedule.{IsSchedule};
ghost use Rattle.pv_run.specs.Headline.{KeepsPromises};
ghost use Rattle.pv_run.specs.InputAnswers.{IsRunAnswer};
ghost use Rattle.pv_run.specs.declared.form.Form.TheVariants.{Text};
ghost use Rattle.pv_run.specs.declared.status.Status.{Status};
ghost use Rattle.pv_site.specs.SiteState.{setup_of};
ghost use Rattle.pv_embed_world.specs.Run.{Is, IsAnswer};

use pv_base::{MAX_INPUT, NoMemory};
use pv_disk::MemBay;
use pv_io::MemSink;
use pv_run::{Form, Status, TextEnd, answers_are_one, promises_are_kept, run_text};
use std::alloc::Global;

/// What a run answers.
#[derive(Debug, Drop)]
pub struct Ran {
    /// The exit code with which `polydb run` ends: 0 where the schedule was run to its end, 3 where the text is malformed, 6 where it is too long, 8 where the messages
    /// pass their limit on bytes.
    pub status: u32,
    /// What `polydb run` prints.
    pub text: Vec<u8>,
}

/// What `polydb run` answers to an input. Takes time in proportion to the text, what is printed and what the events send and touch, and memory for what is printed twice over.
pub fn run(alloc: Global, input: &[u8]) -> Result<Ran, NoMemory>
    ensures answer { IfOk result (IsAnswer input.now) }
    ensures exact { (status : Status) (output : List ℕ) → IsRunAnswer Text input.now status output → IfOk result (λ ran. Is ran status output) }
    ensures promises { (schedule : Schedule) → IsSchedule input.now schedule → KeepsPromises (setup_of schedule.catalog) schedule.events }
{
    answers_are_one();
    promises_are_kept();
    answer(alloc, input)
}

// What is answered to the input.
fn answer(alloc: Global, input: &[u8]) -> Result<Ran, NoMemory>
    ensures { IfOk result (IsAnswer input.now) }
{
    if input.len() as u64 > MAX_INPUT {
        return Ok(Ran {
            status: u32::from(Status::TooLong.code()),
            text: Vec::new(alloc),
        });
    }
    let mut sink = MemSink::new(alloc, Vec::new(alloc));
    let mut bay = MemBay::new(Vec::new(alloc))?;
    match run_text(alloc, input, Form::Text, &mut sink, &mut bay) {
        TextEnd::WriteFault | TextEnd::NoMemory => Err(NoMemory),
        end => {
            let text = Vec::from_slice(alloc, sink.bytes())?;
            Ok(Ran {
                status: u32::from(end.status().code()),
                text,
            })
        }
    }
}
