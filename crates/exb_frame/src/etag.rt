//! The E-TAG.
ghost use Rattle.std.specs.Prelude.{◌≡◌, ◌≤◌, length, drop, OnOk};
ghost use Rattle.std.specs.Option.{option_map};
ghost use Rattle.exb_model.specs.ETags.{TagFits, read_etag, etag_bytes, tagged, stripped};
ghost use Rattle.exb_frame.specs.TagValues.{tag_of};

use crate::append::{begin, put};
use byteorder::{BigEndian, ByteOrder};
use exb_model::bytes::Bytes;
use exb_model::memory::NoMemory;

/// The EtherType of an E-TAG.
pub const E_TAG_TYPE: u16 = 0x893F;

/// Where an E-TAG stands in a frame: after both addresses.
pub const E_TAG_AT: usize = 12;

/// The length of an E-TAG in bytes.
pub const E_TAG_LENGTH: usize = 8;

/// The fields of an E-TAG (after IEEE 802.1BR): the priority of the frame (PCP below 8, DEI), the
/// E-CID of the port by which it came (below 4,096; 0 for none), and the E-CID to which it goes
/// (below 16,384: one port's E-channel below 4,096, a group from there on).
#[derive(Clone, Copy, Debug)]
pub struct ETag {
    pub pcp: u8,
    pub dei: bool,
    pub ingress: u16,
    pub ecid: u16,
}

impl ETag {
    /// The E-TAG of a frame. None exactly for under 20 bytes, another type at byte 12, or an
    /// extension byte that isn't 0. Reserved bits are not looked at.
    pub fn read(frame: &[u8]) -> Option<ETag>
        ensures { option_map tag_of result ≡ read_etag frame.now }
    {
        if frame.len() < 20 {
            return None;
        }
        if BigEndian::read_u16(&frame[12..]) != E_TAG_TYPE
            || BigEndian::read_u16(&frame[18..]) != 0
        {
            return None;
        }
        let first = BigEndian::read_u16(&frame[14..]);
        let second = BigEndian::read_u16(&frame[16..]);
        Some(ETag {
            pcp: (first / 8192) as u8,
            dei: first / 4096 % 2 == 1,
            ingress: first % 4096,
            ecid: second % 16384,
        })
    }

    /// Its eight bytes, with reserved bits and extension bytes 0.
    #[inline(always)]
    pub fn write(&self) -> [u8; 8]
        requires { TagFits (tag_of self.now) }
        ensures { result ≡ etag_bytes (tag_of self.now) }
    {
        let mut bytes = [0u8; 8];
        let dei: u16 = if self.dei { 4096 } else { 0 };
        BigEndian::write_u16(&mut bytes, E_TAG_TYPE);
        BigEndian::write_u16(&mut bytes[2..], self.pcp as u16 * 8192 + dei + self.ingress);
        BigEndian::write_u16(&mut bytes[4..], self.ecid);
        bytes
    }
}

/// A frame with an E-TAG put in at byte 12, in place of what was in `into`. It is put into the
/// place of its call, where most of an E-TAG is known.
#[inline(always)]
pub fn tag_into(frame: &[u8], tag: &ETag, into: &mut Vec<u8>) -> Result<(), NoMemory>
    requires long { 12 ≤ length frame.now }
    requires fits { TagFits (tag_of tag.now) }
    ensures { OnOk result (into.new.items ≡ tagged frame.now (tag_of tag.now)) }
{
    begin(frame.len().saturating_add(8), into)?;
    put(&frame[..12], into)?;
    put(&tag.write(), into)?;
    put(&frame[12..], into)
}

/// A frame without the eight bytes at byte 12, in place of what was in `into`.
#[inline(always)]
pub fn strip_into(frame: &[u8], into: &mut Vec<u8>) -> Result<(), NoMemory>
    requires { 20 ≤ length frame.now }
    ensures { OnOk result (into.new.items ≡ stripped frame.now) }
{
    begin(frame.len(), into)?;
    put(&frame[..12], into)?;
    put(&frame[20..], into)
}

/// Takes the eight bytes at byte 12 out where they stand: the addresses before them move into their
/// place.
#[inline(always)]
pub fn strip_in_place(bytes: &mut Bytes)
    requires { 20 ≤ length bytes.old }
    ensures { bytes.new ≡ stripped bytes.old }
{
    bytes.take_out(E_TAG_AT, E_TAG_LENGTH);
}
