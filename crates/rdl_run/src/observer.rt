//! What is told of a run beside its messages.
use crate::reply::LineRefusal;
use rdl_edit::map::Map;
use rdl_text::name::Name;

/// The map at which something was refused, and the text of the first map, where it is known.
#[derive(Clone, Copy)]
pub struct Scene<'a> {
    pub map: &'a Map,
    pub source: Option<&'a [u8]>,
}

/// Is told what a run does and refuses. Whatever an observer does, the run is the same: it writes the same messages and texts, and
/// ends so.
pub trait Observer {
    /// A map or session is opened, whose place has this map.
    fn map_opened(&mut self, map: &Map);

    /// The line of this number is done, and behind it the map is this one. Lines count from 1; one that lists is not told.
    fn line_done(&mut self, number: usize, line: &[u8], map: &Map);

    /// Each line is done or refused, and the run leaves this map.
    fn map_left(&mut self, map: &Map);

    /// The line of this number is refused at this map. Lines count from 1.
    fn line_refused(&mut self, number: usize, line: &[u8], refusal: &LineRefusal, scene: Scene<'_>);

    /// No map or session is opened of these bytes, with this top if one is asked for.
    fn map_refused(&mut self, bytes: &[u8], top: Option<&Name>);

    /// Two macros of the header of this map would have this name.
    fn header_clashes(&mut self, name: &str, scene: Scene<'_>);
}

/// The observer that does nothing.
#[derive(Clone, Copy, Debug, Drop)]
pub struct Silent;

impl Observer for Silent {
    fn map_opened(&mut self, _map: &Map) {}

    fn line_done(&mut self, _number: usize, _line: &[u8], _map: &Map) {}

    fn map_left(&mut self, _map: &Map) {}

    fn line_refused(
        &mut self,
        _number: usize,
        _line: &[u8],
        _refusal: &LineRefusal,
        _scene: Scene<'_>,
    ) {}

    fn map_refused(&mut self, _bytes: &[u8], _top: Option<&Name>) {}

    fn header_clashes(&mut self, _name: &str, _scene: Scene<'_>) {}
}
