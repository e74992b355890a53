// Who asks for what.
ghost use Rattle.std.specs.Prelude.{◌≡◌};
ghost use Rattle.pv_history.specs.Entries.{intake_of};
ghost use Rattle.pv_mail.specs.Answers as mail;
ghost use Rattle.pv_told.specs.Along.{is_same_asker};
ghost use Rattle.pv_told.specs.Words.{has_asker};

use pv_history::Taken;
use pv_mail::Asker;

// Who asked for what was taken in, if it is a request.
pub(crate) fn asker_of(taken: &Taken) -> Option<Asker>
    ensures { result ≡ mail.asker_of (intake_of taken.now) }
{
    match taken {
        Taken::Request { client, request } => Some(Asker {
            client: *client,
            number: request.number,
        }),
        Taken::Parcel { .. } | Taken::Tick => None,
    }
}

// Whether both are one request.
pub(crate) fn is_same(one: Asker, other: Asker) -> bool
    ensures { result ≡ is_same_asker one other }
{
    one.client == other.client && one.number == other.number
}

// Whether the request is one of these.
pub(crate) fn is_among(asker: Asker, askers: &[Asker]) -> bool
    ensures { result ≡ has_asker asker askers.now }
{
    for other in askers {
        if is_same(*other, asker) {
            return true;
        }
    }
    false
}
