//! Good spellings of each format, and what is read of them with a cut or a bit turned: by the order
//! in which the formats try faults.

/// Under 14 bytes there is no type. Then the TLV that runs past the end is cut, and where the TLVs
/// end without an End, the end.
pub(super) const ANNOUNCEMENTS: &str =
    "0180C200000E024542010001 88CC 02070402454201000104030775700602 0078 FE050245420102 0000\n\
     0 NotLldp | 14 Cut { at: 14 } | 23 Cut { at: 23 } | 28 Cut { at: 28 } | 32 Cut { at: 32 } | 39 Cut { at: 39 }\n\
     0-5 NotLldp | 6-11 unseen | 12-13 NotLldp | 14.01 Cut { at: 14 } | 14 Order { at: 14 } | 15.1F Order { at: 14 } | \
     15 Cut { at: 14 } | 16 Order { at: 14 } | 17-22 ok | 23.01 Cut { at: 23 } | 23 Order { at: 23 } | 24.01 Order { at: \
     27 } | 24.02 Order { at: 23 } | 24.04 Order { at: 32 } | 24.08 Order { at: 36 } | 24 Cut { at: 23 } | 25-27 unseen \
     | 28.01 Cut { at: 28 } | 28 Order { at: 28 } | 29.0F Order { at: 28 } | 29 Cut { at: 28 } | 30-31 unseen | 32.01 \
     Cut { at: 32 } | 32 NoExtension | 33.01 Order { at: 38 } | 33.02 Cut { at: 41 } | 33.04 Cut { at: 35 } | 33 Cut { \
     at: 32 } | 34-37 NoExtension | 38.3D ok | 38 NoExtension | 39.01 Cut { at: 39 } | 39.06 Order { at: 39 } | 39 Cut { \
     at: 41 } | 40 Cut { at: 39 }\n\
     unseen";

/// Under 14 bytes there is no type, and under 18 the header is cut. The payload is what is left.
pub(super) const ECP: &str = "0180C200000E024542000000 8940 10020001 0100000000000000010000\n\
     0 NotEcp | 14 Cut | 18 ok\n\
     0-5 NotEcp | 6-11 ok | 12-13 NotEcp | 14.F0 Version | 14.08 Operation | 14-28 ok\n\
     ok\n\
     %0180C200000E024542010001 8940 10020001 81000000000000000100020002\n\
     0 NotEcp | 14 Cut | 18 ok\n\
     0-5 NotEcp | 6-11 ok | 12-13 NotEcp | 14.F0 Version | 14.08 Operation | 14-30 ok\n\
     ok\n\
     %0180C200000E024542010001 8940 14020001\n\
     0 NotEcp | 14 Cut\n\
     0-5 NotEcp | 6-11 ok | 12-13 NotEcp | 14.F0 Version | 14.08 Operation | 14-17 ok\n\
     ok\n\
     %# The longest payload that can be written, less one.\n\
     0180C200000E024542000000 8940 10020001 1023x55\n\
     0 NotEcp | 14 Cut | 18 ok\n\
     14.F0 Version | 14.08 Operation | 14-17 ok\n\
     ok";

/// Whatever is left of a message, its header or its body is cut. A length that isn't the type's
/// comes before that.
pub(super) const MESSAGES: &str = "01 0000000000000001 0000\n\
     0 Cut\n\
     0.79 UnknownType | 0 Length | 8.01 Range | 1-8 ok | 9-10 Length\n\
     Length\n\
     %02 0000000000000002 0004 01 00 0001\n\
     0 Cut\n\
     0.7A UnknownType | 0 Length | 1-7 ok | 8.02 Range | 8 ok | 9-10 Length | 11 ok | 12.01 ok | 12 Range | 13-14 ok\n\
     Length\n\
     %02 0000000000000003 0004 40 01 0FFE\n\
     0 Cut\n\
     0.7A UnknownType | 0 Length | 1-8 ok | 9-10 Length | 11 ok | 12.01 ok | 12 Range | 13-14 ok\n\
     Length\n\
     %03 000000000000000B 0001 01\n\
     0 Cut\n\
     0.78 UnknownType | 0.07 Length | 0 ok | 1-8 ok | 9-10 Length | 11 ok\n\
     Length\n\
     %04 0000000000000005 000A 3FFF 8000000000000001\n\
     0 Cut\n\
     0.7C UnknownType | 0 Length | 1-8 ok | 9-10 Length | 11-20 ok\n\
     Length\n\
     %05 0000000000000006 0002 1000\n\
     0 Cut\n\
     0.78 UnknownType | 0 Length | 1-8 ok | 9-10 Length | 11-12 ok\n\
     Length\n\
     %# Lists of the fewest and of the most members. With 20 bytes a list of rows is one of E-CIDs too.\n\
     06 0000000000000009 0014 1000 0000000000000002 1003 0000000000000004\n\
     0 Cut\n\
     0.78 UnknownType | 0.01 ok | 0 Length | 1-8 ok | 9-10 Length | 11-30 ok\n\
     Length\n\
     %06 0000000000000009 0280 64x10000000000000000002\n\
     0 Cut\n\
     0.78 UnknownType | 0 Length | 1-8 ok | 9-10 Length | 11-30 ok\n\
     Length\n\
     %07 000000000000000A 0004 1001 1002\n\
     0 Cut\n\
     0.78 UnknownType | 0 Length | 1-8 ok | 9 Length | 10.7A Cut | 10 Length | 11-14 ok\n\
     Length\n\
     %07 000000000000000A 0080 64x1001\n\
     0 Cut\n\
     0.78 UnknownType | 0 Length | 1-8 ok | 9-10 Length | 11-138 ok\n\
     Length\n\
     %81 0000000000000001 0002 00 02\n\
     0 Cut\n\
     0.79 UnknownType | 0 Length | 8.01 Range | 1-8 ok | 9-10 Length | 11.03 ok | 11 Range | 12.3D ok | 12 Range\n\
     Length\n\
     %82 0000000000000002 0001 00\n\
     0 Cut\n\
     0.7A UnknownType | 0.80 Length | 0-7 ok | 8.02 Range | 8 ok | 9-10 Length | 11.03 ok | 11 Range\n\
     Length\n\
     %83 0000000000000003 0001 01\n\
     0 Cut\n\
     0.78 UnknownType | 0.02 Length | 0-8 ok | 9-10 Length | 11.03 ok | 11 Range\n\
     Length\n\
     %84 0000000000000005 0001 02\n\
     0 Cut\n\
     0.7C UnknownType | 0.80 Length | 0-8 ok | 9-10 Length | 11.03 ok | 11 Range\n\
     Length\n\
     %85 0000000000000005 0001 03\n\
     0 Cut\n\
     0.78 UnknownType | 0.84 Length | 0-8 ok | 9-10 Length | 11.03 ok | 11 Range\n\
     Length\n\
     %86 0000000000000005 0001 03\n\
     0 Cut\n\
     0.78 UnknownType | 0.80 Length | 0-8 ok | 9-10 Length | 11.03 ok | 11 Range\n\
     Length\n\
     %87 0000000000000005 0001 00\n\
     0 Cut\n\
     0.78 UnknownType | 0.80 Length | 0-8 ok | 9-10 Length | 11.03 ok | 11 Range\n\
     Length";

/// Under 20 bytes there is no E-TAG.
pub(super) const E_TAGS: &str = "FFFFFFFFFFFF020000000001 893F 0000 0001 0000\n\
     0 none\n\
     0-11 ok | 12-13 none | 14-15 ok | 16.C0 unseen | 16-17 ok | 18-19 none\n\
     ok\n\
     %FFFFFFFFFFFF020000000001 893F B003 1002 0000 0800 46x00\n\
     0 none | 20 ok\n\
     0-11 ok | 12-13 none | 14-15 ok | 16.C0 unseen | 16-17 ok | 18-19 none | 20-67 ok\n\
     ok\n\
     %FFFFFFFFFFFF020000000001 893F FFFF 3FFF 0000 81000FFE\n\
     0 none | 20 ok\n\
     0-11 ok | 12-13 none | 14-15 ok | 16.C0 unseen | 16-17 ok | 18-19 none | 20-23 ok\n\
     ok";

/// Under 14 bytes a frame is short, and under 18 its VLAN tag is a bad one.
pub(super) const FRAMES: &str = "FFFFFFFFFFFF020000000001 0800\n\
     0 Short\n\
     0-13 ok\n\
     ok\n\
     %FFFFFFFFFFFF020000000001 0800 46x00\n\
     0 Short | 14 ok\n\
     0-59 ok\n\
     ok\n\
     %# One bit from a reserved destination, and from a VLAN tag that ends behind its type.\n\
     0180C2000010020000000001 8000 0FFF\n\
     0 Short | 14 ok\n\
     5.10 Reserved | 0-11 ok | 12.01 BadTag | 12-15 ok\n\
     ok\n\
     %FFFFFFFFFFFF020000000001 8100 B00A 0800 46x00\n\
     0 Short | 14 BadTag | 18 ok\n\
     0-63 ok\n\
     ok\n\
     %# The VLANs 1 and 4094, and a priority tag.\n\
     FFFFFFFFFFFF020000000001 8100 2001 0800\n\
     0 Short | 14 BadTag\n\
     0-17 ok\n\
     ok\n\
     %FFFFFFFFFFFF020000000001 8100 0FFE 0800\n\
     0 Short | 14 BadTag\n\
     15.01 BadTag | 0-17 ok\n\
     ok\n\
     %# The longest frame.\n\
     FFFFFFFFFFFF020000000001 8100 F000 9200x00\n\
     \n\
     0-31 ok\n\
     Long";
