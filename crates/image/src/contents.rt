// The contents: the first 17 bytes, which say where the three bodies are.

ghost use Rattle.std.specs.Prelude.{◌≡◌, true, ◌+◌, ◌<◌, ◌≤◌, length};
ghost use Rattle.paper.specs.Image.{two_bytes, offset, extent, contents_right, body as body_of};

/// A number of two bytes, high byte first.
fn number_at(image: &[u8], at: usize) -> usize
    requires { at + 1 < length image.now }
    ensures value { result ≡ two_bytes image.now at }
    ensures small { result < 65536 }
{
    usize::from(image[at]) * 256 + usize::from(image[at + 1])
}

// One name for the offset and one for the length, as the definitions have them.

/// Where body k starts.
pub fn body_offset(image: &[u8], k: usize) -> usize
    requires within { 17 ≤ length image.now }
    requires one_of_three { k < 3 }
    ensures value { result ≡ offset image.now k }
    ensures small { result < 65536 }
{
    number_at(image, 3 + 5 * k)
}

/// How many bytes body k has.
fn body_length(image: &[u8], k: usize) -> usize
    requires within { 17 ≤ length image.now }
    requires one_of_three { k < 3 }
    ensures value { result ≡ extent image.now k }
    ensures small { result < 65536 }
{
    number_at(image, 5 + 5 * k)
}

/// Whether the contents are right.
#[tactic(auto, using(std::proofs::lemmas::Bool::Decides::nat_tests), unfolding(paper::specs::Image::contents_right))]
pub fn are_contents_right(image: &[u8]) -> bool
    ensures { result ≡ contents_right image.now }
{
    if image.len() < 17 {
        return false;
    }
    let symbols = body_offset(image, 0);
    let rules = body_offset(image, 1);
    let order = body_offset(image, 2);
    image[0] == 1
        && image[1] == 3
        && image[2] == 1
        && image[7] == 2
        && image[12] == 3
        && symbols == 17
        && rules == symbols + body_length(image, 0)
        && order == rules + body_length(image, 1)
        && image.len() == order + body_length(image, 2)
}

/// Body k of an image whose contents are right.
#[tactic(auto, using(paper::proofs::Image::contents_right_lem, paper::proofs::Image::body_inside))]
pub fn body(image: &[u8], k: usize) -> &[u8]
    requires right { contents_right image.now ≡ true }
    requires one_of_three { k < 3 }
    ensures { result.now ≡ body_of image.now k }
{
    let start = body_offset(image, k);
    &image[start..start + body_length(image, k)]
}
