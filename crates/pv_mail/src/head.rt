// What a box takes in, beside what its site is given of it.
ghost use Rattle.std.specs.Prelude.{◌≡◌, ℕ};
ghost use Rattle.pv_base.specs.Catalog.{Declared};
ghost use Rattle.pv_history.specs.Entries.{intake_of};
ghost use Rattle.pv_law_histories.specs.Course.{input_of};
ghost use Rattle.pv_mail.specs.Given.{IsTakenFor};
ghost use Rattle.pv_mail.specs.Heads.{AreOneKind, joined};
ghost use Rattle.pv_site.specs.Inputs.{IsInputFor};
ghost use Rattle.pv_site.specs.Values as site;

use pv_history::Taken;
use pv_script::Request;
use pv_site::Input;

/// What was taken in, without what its site is given.
#[derive(Drop)]
pub enum Head {
    /// Of a request.
    Request {
        /// The place of its client among the site's own.
        client: u32,
        /// Its number among its client's.
        number: u32,
        /// Whether its program only answers.
        query: bool,
        /// The program's text.
        text: Vec<u8>,
    },
    /// Of a message.
    Parcel {
        /// The stamp of the entry of the step that sent it.
        stamp: u64,
        /// Its place among the messages of that step.
        place: u32,
    },
    /// Of a tick.
    Tick,
}

/// What the site is given, and what is left of what was taken in.
pub fn parted(taken: Taken) -> (Input, Head)
    ensures input { site.input_of result.0 ≡ input_of (intake_of taken) }
    ensures fits { (me : ℕ) (catalog : Declared) → IsTakenFor me catalog taken → IsInputFor me catalog result.0 }
    ensures kind { AreOneKind result.1 result.0 }
    ensures whole { joined result.1 result.0 ≡ taken }
{
    match taken {
        Taken::Request { client, request } => {
            let Request {
                number,
                query,
                text,
                program,
                plan,
            } = request;
            let head = Head::Request {
                client,
                number,
                query,
                text,
            };
            (Input::Submit { program, plan }, head)
        }
        Taken::Parcel {
            from,
            stamp,
            place,
            message,
        } => (Input::Take { from, message }, Head::Parcel { stamp, place }),
        Taken::Tick => (Input::Tick, Head::Tick),
    }
}

/// What was taken in, put together again.
pub fn joined(head: Head, input: Input) -> Taken
    requires { AreOneKind head input }
    ensures { result ≡ joined head input }
{
    match (head, input) {
        (
            Head::Request {
                client,
                number,
                query,
                text,
            },
            Input::Submit { program, plan },
        ) => Taken::Request {
            client,
            request: Request {
                number,
                query,
                text,
                program,
                plan,
            },
        },
        (Head::Parcel { stamp, place }, Input::Take { from, message }) => Taken::Parcel {
            from,
            stamp,
            place,
            message,
        },
        // Else both are of a tick.
        _ => Taken::Tick,
    }
}
