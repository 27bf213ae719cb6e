//! Fields of raw bytes, whose values may hold SOH.

ghost use Rattle.std.specs.Prelude.{◌≡◌};
ghost use Rattle.field_groups.specs.Data.{is_data_pair};

/// The least tag of a field of raw bytes: Signature.
pub(crate) const LEAST_DATA: u32 = 89;

/// Whether the first tag is that of the length field of the second, a field of raw bytes.
#[inline(always)]
#[tactic(auto, using(crate::proofs::DataTags::single), unfolding(crate::specs::Data::is_data_pair))]
#[rattlefmt::skip]
pub(crate) fn is_data_pair(len: u32, tag: u32) -> bool
    ensures { result ≡ is_data_pair len tag }
{
    if tag < LEAST_DATA {
        return false;
    }
    // In each pair but that of Signature the tags are neighbours.
    if tag != LEAST_DATA && tag - 1 != len {
        return false;
    }
    match len {
        93 => tag == 89,   // SignatureLength, Signature
        90 => tag == 91,   // SecureDataLen, SecureData
        95 => tag == 96,   // RawDataLength, RawData
        212 => tag == 213, // XmlDataLen, XmlData
        348 => tag == 349, // EncodedIssuerLen, EncodedIssuer
        350 => tag == 351, // EncodedSecurityDescLen, EncodedSecurityDesc
        352 => tag == 353, // EncodedListExecInstLen, EncodedListExecInst
        354 => tag == 355, // EncodedTextLen, EncodedText
        356 => tag == 357, // EncodedSubjectLen, EncodedSubject
        358 => tag == 359, // EncodedHeadlineLen, EncodedHeadline
        360 => tag == 361, // EncodedAllocTextLen, EncodedAllocText
        362 => tag == 363, // EncodedUnderlyingIssuerLen, EncodedUnderlyingIssuer
        364 => tag == 365, // EncodedUnderlyingSecurityDescLen, EncodedUnderlyingSecurityDesc
        445 => tag == 446, // EncodedListStatusTextLen, EncodedListStatusText
        618 => tag == 619, // EncodedLegIssuerLen, EncodedLegIssuer
        621 => tag == 622, // EncodedLegSecurityDescLen, EncodedLegSecurityDesc
        _ => false,
    }
}
