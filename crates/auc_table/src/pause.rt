//! Who is asked within a search whether it goes on.

/// Asked within a search whether it goes on.
pub trait Pause {
    /// Whether the search goes on, after it has scanned so many entries. After a no it is not asked again.
    fn goes_on(&mut self, scanned: u64) -> bool;
}

/// How much a search may scan, and who may end it before.
#[derive(Drop)]
pub(crate) struct Budget<'a, P> {
    pub(crate) scans: u64,
    pause: &'a mut P,
    pub(crate) is_refused: bool,
}

impl<'a, P: Pause> Budget<'a, P> {
    /// So many entries may be scanned.
    pub(crate) fn new(scans: u64, pause: &'a mut P) -> Budget<'a, P> {
        Budget {
            scans,
            pause,
            is_refused: false,
        }
    }

    /// Whether a search ends that has scanned so many.
    pub(crate) fn is_spent(&mut self, scanned: u64) -> bool {
        if self.is_refused || self.scans < scanned {
            return true;
        }
        self.is_refused = !self.pause.goes_on(scanned);
        self.is_refused
    }
}
