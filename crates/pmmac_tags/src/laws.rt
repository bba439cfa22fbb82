//! Laws of tags and of the texts that they are computed from. The functions do nothing: each states a law in its
//! contract.

ghost use Rattle.std.specs.Prelude.{◌≡◌, ℕ, List, length};
ghost use Rattle.asc_base.specs.Bytes.{AreBytes};
ghost use Rattle.asc_base.specs.declared.block.Message.{Message};
ghost use Rattle.pmmac_tags.specs.Tag.{message_text, tag, IsMessage};

/// Two messages with one text are one message, where their numbers are in the ranges of their types. So one line under
/// two counters, or two lines under one, are never one text.
pub fn texts_tell_messages()
    ensures { (x y : Message) → IsMessage x → IsMessage y → message_text x ≡ message_text y → x ≡ y }
{}

/// Every tag has 16 bytes, each below 256, whatever the key and the message.
pub fn tags_have_16_bytes()
    ensures number { (key : List ℕ) (message : Message) → length (tag key message) ≡ 16 }
    ensures bytes { (key : List ℕ) (message : Message) → AreBytes (tag key message) }
{}
