// Oracles: who answers for digests and signatures, by one fixed meaning.
//
// An `Oracle` means two functions: the digest of some octets, or none, and the verdict on a key, a message and a
// signature, which come together as a `Claim`. Its methods promise to answer exactly by them, for all octets, and no question changes them, so
// what is proved of code over `O: Oracle` holds for every implementation. `Scheme` is the test scheme, whose
// digest is the exclusive-or of the blocks of 32 octets, and `Silent` says no to all. `vouches` is a caller. It
// rests on nothing but the standard library.
#![tactic(auto)]

ghost use Rattle.std.specs.Prelude.{◌≡◌, ℕ, ◌<◌, Bool, true, false, List, ◌++◌, replicate, Some, None, Decides, Option};
ghost use Rattle.oracle.specs.Runs.{xor_run};
ghost use Rattle.oracle.specs.Scheme.{scheme_digest, scheme_verdict};
ghost use Rattle.oracle.specs.Meaning.{answer_on, silent_digest, silent_verdict, AlwaysNoIsNotTheScheme, SchemeDigestsHave32Octets};

// What is asked about a signature: whether it is one by the key on the message. The signature stands first, since
// `==` compares in this order, and signatures differ soonest.
#[derive(Clone, Copy, PartialEq, Eq)]
pub struct Claim<'a> {
    pub signature: &'a [u8],
    pub message: &'a [u8],
    pub key: &'a [u8],
}

// Who answers for digests and signatures.
pub trait Oracle {
    // The digest of some octets, 32 octets, or none where it is not known.
    ghost digest_of: { Self → List ℕ → Option (List ℕ) };

    // The verdict on a claim: key, message, signature.
    ghost verdict_on: { Self → List ℕ → List ℕ → List ℕ → Bool };

    fn digest(&self, octets: &[u8]) -> Option<[u8; 32]>
        ensures { result ≡ digest_of self.now octets.now };

    fn verifies(&self, claim: Claim<'_>) -> bool
        ensures { result ≡ answer_on (verdict_on self.now) claim.entry };
}

// Takes the octets up into the block, from the place `from` on, and answers the next place.
fn mix(block: &mut [u8; 32], from: usize, octets: &[u8]) -> usize
    requires { from < 32 }
    ensures value { (block.new, result) ≡ xor_run block.old from octets.now }
    ensures bound { result < 32 }
{
    let mut at = from;
    for octet in octets {
        block[at] ^= *octet;
        at = (at + 1) % 32;
    }
    at
}

// A block with no octet taken up: what the last block lacks stays 00.
fn filled_block() -> [u8; 32]
    ensures { result ≡ replicate 32 0 }
{
    [0; 32]
}

// The digest of one run of octets and another after it.
fn digest_of_both(front: &[u8], back: &[u8]) -> [u8; 32]
    ensures { result ≡ scheme_digest (front.now ++ back.now) }
{
    let mut block = filled_block();
    let at = mix(&mut block, 0, front);
    mix(&mut block, at, back);
    block
}

// The test scheme: the digest is the exclusive-or of the blocks of 32 octets, the last filled up with 00, and a
// signature is the digest of the key followed by the message.
#[derive(Clone, Copy)]
pub struct Scheme;

impl Oracle for Scheme {
    ghost digest_of = { λ _ s. Some (scheme_digest s) };

    ghost verdict_on = { λ _ k m g. scheme_verdict k m g };

    fn digest(&self, octets: &[u8]) -> Option<[u8; 32]> {
        Some(digest_of_both(octets, &[]))
    }

    fn verifies(&self, claim: Claim<'_>) -> bool {
        claim.signature == digest_of_both(claim.key, claim.message).as_slice()
    }
}

// An oracle that knows no digest and says no to all.
#[derive(Clone, Copy)]
pub struct Silent;

impl Oracle for Silent {
    ghost digest_of = { λ _ s. silent_digest s };

    ghost verdict_on = { λ _ k m g. silent_verdict k m g };

    fn digest(&self, _octets: &[u8]) -> Option<[u8; 32]> {
        None
    }

    fn verifies(&self, _claim: Claim<'_>) -> bool {
        false
    }
}

// Whether the oracle says yes to the claim and gives the stated digest for its message.
pub fn vouches<O: Oracle>(oracle: &O, claim: Claim<'_>, stated: [u8; 32]) -> bool
    ensures { Decides result ((answer_on (O.verdict_on oracle.now) claim.entry ≡ true) × (O.digest_of oracle.now claim.entry.message.now ≡ Some stated)) }
{
    oracle.verifies(claim) && oracle.digest(claim.message) == Some(stated)
}

// The generic caller at the test scheme: its bound is met.
pub fn scheme_vouches(claim: Claim<'_>, stated: [u8; 32]) -> bool
    ensures { Decides result ((answer_on scheme_verdict claim.entry ≡ true) × (scheme_digest claim.entry.message.now ≡ stated)) }
{
    vouches(&Scheme, claim, stated)
}

// Whoever always says no does not answer by the test scheme.
pub fn always_no_is_not_the_scheme() -> bool
    ensures { AlwaysNoIsNotTheScheme }
{
    true
}

// The test scheme's digest of any octets has 32 octets.
pub fn scheme_digests_have_32_octets() -> bool
    ensures { SchemeDigestsHave32Octets }
{
    true
}
