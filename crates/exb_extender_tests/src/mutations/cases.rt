//! Frames of every side, and what becomes of them with a cut or a bit turned: by the rules of
//! forwarding, by the order in which ECP and messages try faults, and by the order of a request's
//! codes.

/// Control from upstream. Under 18 bytes ECP is cut; what is no message of the control protocol is
/// acknowledged alone.
pub(super) const CONTROL: &str =
    "# The first request, Open: no other is of that length, and no other serial is the next one.\n\
     PowerOn down 0180C200000E024542000000 8940 10020001 01 0000000000000001 0000\n\
     answer 00020003\n\
     0 nothing | 18 ack\n\
     0-5 nothing | 6-11 same | 12-15 nothing | 16-17 same | 18-28 ack\n\
     0 ack\n\
     %# A port is created before Open: one of three ports, of either kind, with a channel.\n\
     PowerOn down 0180C200000E024542000000 8940 10020001 02 0000000000000001 0004 01 00 0001\n\
     answer 000100\n\
     0 nothing | 18 ack\n\
     0-5 nothing | 6-11 same | 12-15 nothing | 16-17 same | 18-28 ack | 29.02 same | 29 answer 000101 | 30.01 same | 30 \
     ack | 31.F0 answer 000102 | 32.01 answer 000102 | 31-32 same\n\
     0 ack\n\
     %# Registered before its port has a channel. An E-CID that is none is told before that; no port at all is no fault.\n\
     Opened down 0180C200000E024542000000 8940 10020002 04 0000000000000002 000A 1000 0000000000000001\n\
     answer 000101\n\
     0 nothing | 18 ack\n\
     0-5 nothing | 6-11 same | 12-15 nothing | 16-17 same | 18-28 ack | 29.D0 answer 000102 | 38.01 answer 000100 | \
     29-38 same\n\
     0 ack\n\
     %# One bit from the sequence that was received last, and from the serial whose answer is stored.\n\
     Ports down 0180C200000E024542000000 8940 10020005 05 0000000000000005 0002 1000\n\
     answer 000100\n\
     0 nothing | 18 ack\n\
     0-5 nothing | 6-11 same | 12-15 nothing | 17.01 ack | 16-17 same | 26.01 again 820000000000000004000100 | 18-28 ack \
     | 29.D0 answer 000102 | 29-30 same\n\
     0 ack\n\
     %# A port is deleted, one of three.\n\
     Ports down 0180C200000E024542000000 8940 10020005 03 0000000000000005 0001 03\n\
     answer 000100\n\
     0 nothing | 18 ack\n\
     0-5 nothing | 6-11 same | 12-15 nothing | 17.01 ack | 16-17 same | 26.01 again 820000000000000004000100 | 18-28 ack \
     | 29.03 same | 29 answer 000101\n\
     0 ack\n\
     %# A port that there is has a channel already.\n\
     Ports down 0180C200000E024542000000 8940 10020005 02 0000000000000005 0004 00 00 0004\n\
     answer 000101\n\
     0 nothing | 18 ack\n\
     0-5 nothing | 6-11 same | 12-15 nothing | 17.01 ack | 16-17 same | 26.01 again 820000000000000004000100 | 18-28 ack \
     | 29.03 answer 000103 | 29 same | 30.01 same | 30 ack | 31-32 same\n\
     0 ack\n\
     %# One bit from an E-CID that has rows, and from a mask with a port that there is not.\n\
     Rows down 0180C200000E024542000000 8940 10020006 04 0000000000000006 000A 1001 0000000000000006\n\
     answer 000100\n\
     0 nothing | 18 ack\n\
     0-5 nothing | 6-11 same | 12-15 nothing | 16-17 same | 18-28 ack | 29.10 answer 000103 | 29.C0 answer 000102 | \
     30.01 answer 000103 | 29-30 same | 38.07 same | 31-38 answer 000101\n\
     0 ack\n\
     %# One bit from an E-CID that stands twice. As a list of E-CIDs it names 0.\n\
     Rows down 0180C200000E024542000000 8940 10020006 06 0000000000000006 0014 1001 0000000000000001 1003 \
     0000000000000004\n\
     answer 000100\n\
     0 nothing | 18 ack\n\
     0-5 nothing | 6-11 same | 12-15 nothing | 16-17 same | 18.01 answer 000102 | 18-28 ack | 29.10 answer 000103 | \
     29.C0 answer 000102 | 30.03 answer 000103 | 29-30 same | 38.07 same | 31-38 answer 000101 | 39.10 answer 000103 | \
     39.C0 answer 000102 | 40.02 answer 000103 | 39-40 same | 48.07 same | 41-48 answer 000101\n\
     0 ack\n\
     %# E-CIDs may repeat, and need no rows.\n\
     Rows down 0180C200000E024542000000 8940 10020006 07 0000000000000006 0004 1000 0009\n\
     answer 000100\n\
     0 nothing | 18 ack\n\
     0-5 nothing | 6-11 same | 12-15 nothing | 16-17 same | 18-28 ack | 29.D0 answer 000102 | 31.C0 answer 000102 | \
     29-32 same\n\
     0 ack\n\
     %# An answer from upstream, and whatever becomes of it, is no request; nor is an ECP of another subtype.\n\
     Rows down 0180C200000E024542000000 8940 10020006 82 0000000000000006 0001 00\n\
     ack\n\
     0 nothing | 18 same\n\
     0-5 nothing | 6-11 same | 12-15 nothing | 16-29 same\n\
     0 same\n\
     %# The acknowledgement of what is sent. One bit from a request with the sequence that was received last.\n\
     Rows down 0180C200000E024542000000 8940 14020005\n\
     stops\n\
     0 nothing\n\
     0-5 nothing | 6-11 same | 14.04 ack | 12-17 nothing\n\
     0 same\n\
     %# The announcement of another extender.\n\
     Rows down 0180C200000E024542010001 88CC 02070402454201000104030775700602 0078 FE050245420102 0000\n\
     nothing\n\
     0 same\n\
     0-40 same\n\
     0 same";

/// Words from upstream. Addresses, PCP, DEI and reserved bits are not looked at; under 20 bytes
/// there is no E-TAG.
pub(super) const WORDS: &str = "# Nothing goes anywhere at power-on.\n\
     PowerOn down FFFFFFFFFFFF020000000001 893F 0001 1000 0000 0800\n\
     nothing\n\
     0 same\n\
     0-21 same\n\
     0 same\n\
     %# A channel, whatever the ingress number is; one bit from the channel of the cascade port.\n\
     Ports down FFFFFFFFFFFF020000000001 893F 0002 0002 0000 0800\n\
     2 stripped;\n\
     0 nothing | 20 same\n\
     0-11 same | 12-13 nothing | 14-15 same | 16.C0 same | 17.01 3 stripped; | 16-19 nothing | 20-21 same\n\
     0 same\n\
     %# A group without the port that it came from; with another ingress number it goes there too.\n\
     Rows down FFFFFFFFFFFF020000000001 893F 0001 1000 0000 0800\n\
     2 stripped; 3;\n\
     0 nothing | 20 same\n\
     0-11 same | 12-13 nothing | 14.F0 same | 14-15 1 stripped; 2 stripped; 3; | 16.C0 same | 16-19 nothing | 20-21 same\n\
     0 same\n\
     %# The same with each bit set that is not looked at.\n\
     Rows down FFFFFFFFFFFF020000000001 893F F000 D000 0000\n\
     1 stripped; 2 stripped; 3;\n\
     0 nothing\n\
     0-11 same | 12-13 nothing | 15.01 2 stripped; 3; | 15.02 1 stripped; 3; | 14-15 same | 16.C0 same | 16-19 nothing\n\
     0 same\n\
     %# A channel behind the cascade port; one bit from that of a port.\n\
     Rows down FFFFFFFFFFFF020000000001 893F 0000 0009 0000 0800\n\
     3;\n\
     0 nothing | 20 same\n\
     0-11 same | 12-13 nothing | 14-15 same | 16.C0 same | 17.08 1 stripped; | 16-19 nothing | 20-21 same\n\
     0 same\n\
     %# Control for the extender on the cascade port.\n\
     Rows down 0180C200000E020000000001 893F 0000 0003 0000 88CC\n\
     3 stripped;\n\
     0 nothing | 20 same\n\
     0-11 same | 12-13 nothing | 14-15 same | 16.C0 same | 17.01 2 stripped; | 17.02 1 stripped; | 16-19 nothing | 20-21 \
     same\n\
     0 same\n\
     %# No E-TAG.\n\
     Rows down FFFFFFFFFFFF020000000001 0800 0000 1000 0000\n\
     nothing\n\
     0 same\n\
     0-19 same\n\
     0 same";

/// Frames from the cascade port. Only the E-TAG of a channel goes up, and a control frame without
/// one by the channel of the port.
pub(super) const FROM_BELOW: &str =
    "# The channels 1 and 4094, with each other bit clear and set.\n\
     Rows below FFFFFFFFFFFF020000000001 893F 0000 0001 0000 0800\n\
     up;\n\
     0 nothing | 20 same\n\
     0-11 same | 12-13 nothing | 16.30 nothing | 17.01 nothing | 14-17 same | 18-19 nothing | 20-21 same\n\
     0 same\n\
     %Rows below FFFFFFFFFFFF020000000001 893F FFFF CFFE 0000\n\
     up;\n\
     0 nothing\n\
     0-11 same | 12-13 nothing | 16.30 nothing | 17.01 nothing | 14-17 same | 18-19 nothing\n\
     0 same\n\
     %# A group.\n\
     Rows below FFFFFFFFFFFF020000000001 893F 0001 1000 0000 0800\n\
     nothing\n\
     0 same\n\
     0-21 same\n\
     0 same\n\
     %# Control of the extender on the port, of any type; one bit from that of an E-TAG.\n\
     Rows below 0180C200000E024542010002 88CC 0207\n\
     up by 3;\n\
     0 nothing | 14 same\n\
     0-5 nothing | 6-15 same\n\
     0 same\n\
     %Rows below 0180C200000E024542010002 893E 0000 0009 0000\n\
     up by 3;\n\
     0 nothing | 14 same\n\
     0-5 nothing | 13.01 up; | 6-19 same\n\
     0 same\n\
     %# The same where the port has no channel: what has an E-TAG of its own goes up still.\n\
     Unchannelled below 0180C200000E024542010002 893E 0000 0009 0000\n\
     nothing\n\
     0 same\n\
     13.01 up; | 0-19 same\n\
     0 same\n\
     %# No E-TAG.\n\
     Ports below FFFFFFFFFFFF020000000001 0800 0000 0001 0000\n\
     nothing\n\
     0 same\n\
     0-19 same\n\
     0 same";

/// Frames of stations. They go up whatever they hold, unless they are short, long or reserved, or
/// the port has no channel.
pub(super) const FROM_STATIONS: &str = "Rows arrive FFFFFFFFFFFF020000000001 0800 4500\n\
     up by 1;\n\
     0 ignored | 14 same\n\
     0-15 same\n\
     0 same | 9217 ignored\n\
     %# One bit from a reserved destination, with a VLAN tag that is none.\n\
     Rows arrive 0180C2000010020000000001 8100 0FFF\n\
     up by 1;\n\
     0 ignored | 14 same\n\
     5.10 ignored | 0-15 same\n\
     0 same | 9217 ignored\n\
     %# A request that a station makes up.\n\
     Rows arrive 0180C200000E024542000000 8940 10020006 01 0000000000000006 0000\n\
     ignored\n\
     0 same\n\
     5.0F same | 0-5 up by 1; | 6-28 same\n\
     0 same\n\
     %# An E-TAG that a station makes up.\n\
     Rows arrive FFFFFFFFFFFF020000000001 893F 0001 1000 0000 0800\n\
     up by 1;\n\
     0 ignored | 14 same\n\
     0-21 same\n\
     0 same | 9217 ignored\n\
     %# No port has a channel before it is created.\n\
     PowerOn arrive FFFFFFFFFFFF020000000001 0800 4500\n\
     ignored\n\
     0 same\n\
     0-15 same\n\
     0 same\n\
     %Opened arrive 0180C200000E024542000000 8940 10020002 01 0000000000000002 0000\n\
     ignored\n\
     0 same\n\
     0-28 same\n\
     0 same";
