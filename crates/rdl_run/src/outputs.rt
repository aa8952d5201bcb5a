//! The four outputs of a run, together.

use crate::counted::CountedWriter;

/// The outputs of a run, each asked through a count: the map, its header, the session, and the messages.
#[derive(Drop)]
pub(crate) struct Outputs<'r, 'h, 'z, 'e, R, H, Z, E> {
    pub(crate) rdl: CountedWriter<'r, R>,
    pub(crate) header: CountedWriter<'h, H>,
    pub(crate) session: CountedWriter<'z, Z>,
    pub(crate) messages: CountedWriter<'e, E>,
}
