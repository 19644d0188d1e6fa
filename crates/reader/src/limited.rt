// A header that is not refused: whoever has one knows that its counts are within the limits and add up.
ghost use Rattle.reader.specs.Sections.{Limited};

use text::Header;

#[derive(Clone, Copy)]
pub(crate) struct LimitedHeader {
    pub header: Header,
    ghost limited: { Limited header },
}
