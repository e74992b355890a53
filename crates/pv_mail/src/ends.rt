// The rings into a box and out of it.
use crate::Answer;
use pv_post::{In, Out};
use pv_script::Request;

/// A message of a site in a ring.
#[derive(Debug, Drop)]
pub struct Parcel {
    /// The stamp of the entry of the step that sent it.
    pub stamp: u64,
    /// Its place among the messages of that step.
    pub place: u32,
    /// The bytes that spell it.
    pub bytes: Vec<u8>,
}

/// The ring ends of a box. Those of sites stand in the order of sites, the box's own among them, and those of clients in the order of the
/// site's own clients.
#[derive(Drop)]
pub struct Ends {
    /// What each site sends here.
    pub sites_in: Vec<In<Parcel>>,
    /// What this site sends to each.
    pub sites_out: Vec<Out<Parcel>>,
    /// What each client asks for.
    pub clients_in: Vec<In<Request>>,
    /// What each client hears.
    pub clients_out: Vec<Out<Answer>>,
}
