// What a client is told.
use crate::word::Word;
use pv_mail::Asker;

/// What a client is told of a request.
#[derive(Clone, Copy)]
pub(crate) struct Told<'a> {
    pub(crate) asker: Asker,
    pub(crate) word: Word<'a>,
}
