// The house grammar, which serves where no image is given.

ghost use Rattle.std.specs.Prelude.{◌≡◌, None};
ghost use Rattle.paper.specs.Image.{house, image_fault, grammar_of};
ghost use Rattle.paper.specs.Demands.{IsHouse};

/// The image of the house grammar.
pub const HOUSE: [u8; 36] = [
    0x01, 0x03, 0x01, 0x00, 0x11, 0x00, 0x03, 0x02, 0x00, 0x14, 0x00, 0x0E, 0x03, 0x00, 0x22, 0x00,
    0x02, 0x04, 0x03, 0x04, 0x03, 0x04, 0x02, 0x05, 0x06, 0x05, 0x03, 0x00, 0x01, 0x02, 0x06, 0x02,
    0x01, 0x03, 0x01, 0x02,
];

/// The image of the house grammar, as bytes that are lent.
pub fn house_image() -> &'static [u8]
    ensures bytes { result.now ≡ house }
    ensures admitted { image_fault result.now ≡ None }
    ensures meant { IsHouse (grammar_of result.now) }
{
    &HOUSE
}
