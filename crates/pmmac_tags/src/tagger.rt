ghost use Rattle.std.specs.Prelude.{◌≡◌, ◌↔◌, IsTrue, take};
ghost use Rattle.pmmac_tags.specs.Tag.{message_text, tag, tag_key};

use asc_base::Message;
use hmac_sha::{HmacKey, derive};
use std::marker::Model;

/// Gives messages their tags: the first 16 bytes of the authentication code of a message's text.
///
/// It is seen as its key, which the master key gives under the label `ascend tag`. The key's hashers are kept, so that a
/// tag takes three compressions of SHA-256.
#[derive(Drop)]
pub struct Tagger {
    key: HmacKey,
}

impl Model for Tagger {
    ghost use Rattle.std.specs.Prelude.{ℕ, List};

    ghost Value = { List ℕ };

    ghost view = { λ tagger. tagger.key };
}

impl Tagger {
    /// The tags of a master key.
    #[tactic(auto, unfolding(crate::specs::Tag::tag_key))]
    pub fn new(master: &[u8; 32]) -> Tagger
        ensures { result ≡ tag_key master.now }
    {
        Tagger {
            key: HmacKey::new(&derive(master, b"ascend tag")),
        }
    }

    /// The tag of a message.
    #[tactic(auto, unfolding(crate::specs::Tag::tag))]
    pub fn tag(&self, message: &Message) -> [u8; 16]
        ensures { result ≡ tag self.now message.now }
    {
        let code = self.key.code(&text_of(message));
        first_half(&code)
    }

    /// Whether these 16 bytes are the tag of a message.
    pub fn holds(&self, message: &Message, found: &[u8; 16]) -> bool
        ensures { IsTrue result ↔ (tag self.now message.now ≡ found.now) }
    {
        let computed = self.tag(message);
        computed.as_slice() == found.as_slice()
    }
}

// The text of a message.
fn text_of(message: &Message) -> [u8; 78]
    ensures { result ≡ message_text message.now }
{
    let mut text = [0u8; 78];
    text[..4].copy_from_slice(&message.address.0.to_be_bytes());
    text[4..12].copy_from_slice(&message.counter.group.to_be_bytes());
    text[12..14].copy_from_slice(&message.counter.own.to_be_bytes());
    text[14..].copy_from_slice(&message.line.0);
    text
}

// The first half of a code.
fn first_half(code: &[u8; 32]) -> [u8; 16]
    ensures { result ≡ take 16 code.now }
{
    let mut half = [0u8; 16];
    half.copy_from_slice(&code[..16]);
    half
}
