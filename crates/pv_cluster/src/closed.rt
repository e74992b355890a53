// What is left of a live run.
use pv_cell::SiteBox;
use pv_closing::ClientLine;
use pv_disk::Log;

/// What is left when all have ended: the boxes with their histories, and the line of each request.
#[derive(Drop)]
pub struct Closed<L: Log> {
    /// The boxes, in the order of sites.
    pub boxes: Vec<SiteBox<L>>,
    /// Of each client of the script the line of each of its requests, in order, as its site's history has it.
    pub clients: Vec<Vec<ClientLine>>,
}
