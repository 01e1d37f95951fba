// What is marked of a paper, fragment by fragment: the bodies in order and then the initialiser.

#![tactic(auto)]

ghost use Rattle.std.specs.Prelude.{◌≡◌, ◌≤◌, ◌↔◌, length, IfSome, IsNone};
ghost use Rattle.definition.specs.Papers.{fragments};
ghost use Rattle.fragments.specs.View.{fragment_of};
ghost use Rattle.header.specs.View as Header;

/// A fragment, and the heights that it starts from.
#[derive(Clone, Copy, Debug, PartialEq, Eq)]
pub struct Fragment<'a> {
    pub bytes: &'a [u8],
    pub main: u32,
    pub alt: u32,
}

/// The bytes of fragment `k`: none where the paper has no fragment `k`.
#[tactic(auto, using(crate::proofs::Numbered::bytes_of_kth))]
pub fn fragment_bytes<'a>(paper: &'a [u8], k: usize) -> &'a [u8]
    ensures { result.now ≡ (Header.fragment_at paper.now k).bytes }
{
    if k < header::entry_count(paper) {
        header::nth_entry(paper, k).body.bytes(paper)
    } else if k < header::fragment_count(paper) {
        header::initialiser(paper).bytes(paper)
    } else {
        &[]
    }
}

/// The main height that fragment `k` starts from: 0 where the paper has no fragment `k`.
#[tactic(auto, using(crate::proofs::Numbered::main_of_kth))]
pub fn fragment_main(paper: &[u8], k: usize) -> u32
    ensures { result ≡ (Header.fragment_at paper.now k).main }
{
    if k < header::entry_count(paper) {
        let parameters = header::nth_entry(paper, k).parameters;
        u32::from(parameters) + u32::from(header::state_fields(paper))
    } else if k < header::fragment_count(paper) {
        u32::from(header::most_parameters(paper))
    } else {
        0
    }
}

/// The alt height that fragment `k` starts from: 0 where the paper has no fragment `k`.
#[tactic(auto, using(crate::proofs::Numbered::alt_of_kth))]
pub fn fragment_alt(paper: &[u8], k: usize) -> u32
    ensures { result ≡ (Header.fragment_at paper.now k).alt }
{
    if k < header::entry_count(paper) {
        0
    } else if k < header::fragment_count(paper) {
        1
    } else {
        0
    }
}

/// Fragment `k`, an empty one from heights 0 where the paper has no fragment `k`.
#[tactic(auto, using(crate::proofs::Numbered::parts_of_kth))]
pub fn fragment_at<'a>(paper: &'a [u8], k: usize) -> Fragment<'a>
    ensures { fragment_of result ≡ Header.fragment_at paper.now k }
{
    Fragment {
        bytes: fragment_bytes(paper, k),
        main: fragment_main(paper, k),
        alt: fragment_alt(paper, k),
    }
}

/// Fragment `k`, from 0; `None` where the paper has no fragment `k`.
pub fn nth_fragment<'a>(paper: &'a [u8], k: usize) -> Option<Fragment<'a>>
    ensures found { IfSome result (λ f. fragment_of f ≡ Header.fragment_at paper.now k) }
    ensures past { IsNone result ↔ (length (fragments paper.now) ≤ k) }
{
    if k < header::fragment_count(paper) {
        Some(fragment_at(paper, k))
    } else {
        None
    }
}
