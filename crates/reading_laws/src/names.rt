//! Laws of members' names, read as texts: each is the contract of a function, and costs nothing to call.

ghost use Rattle.reading_laws.specs.NameLaws.{ReadAsText, HaveRoomAmong, HaveRoom};

/// A name is read as its text, at each depth, whatever references of values are in progress.
pub fn read_as_text<S>()
    ensures { ReadAsText S }
{}

/// Where references of values are in progress, a name among these places has no fewer keys left there than its text alone has,
/// wherever that stands.
pub fn have_room_among()
    ensures { HaveRoomAmong }
{}

/// Where references of values are in progress, a name of the instance has no fewer keys left than its text alone has.
pub fn have_room()
    ensures { HaveRoom }
{}
