// A form: its counts, its number, and the beats that it has.
#[derive(Clone, Copy)]
pub struct Form<'a> {
    pub t: u64,
    pub s: u64,
    pub number: u64,
    pub beats: &'a [u8],
}

impl Form<'_> {
    // The form of t and s with a number, in room that is long enough for it.
    pub fn new(t: u64, s: u64, number: u64, room: &mut [u8]) -> Option<Form<'_>> {
        let length = usize::try_from(t.checked_add(s)?).ok()?;
        let beats = room.get_mut(..length)?;
        form::form(t, s, number, beats).ok()?;
        Some(Form {
            t,
            s,
            number,
            beats,
        })
    }
}
