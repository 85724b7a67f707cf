//! The cases, as tests/conformance/cases.txt has them (profile).

/// The cases of this project, as a file of cases; `tests/run/conformance_cases` holds it against the file.
pub const CASES: &[u8] = b"# Rules of the protocol that an encoder keeps or doesn't.
#
# README.md, beside this file, tells its form. What must come was worked out by hand from docs/PROTOCOL.md. Each case
# begins where the encoder was just joined: 01 is the next counter, and the replies to 81 .. FF are kept, with code 00.
# A frame that must not act carries 99, which no encoder knows: had it been applied, the reply to its counter would be
# another.
format 1

# ---- Framing

case a frame is answered
group framing
rule An encoder answers a frame at its own address, under the next counter, with code 00 where the message was applied.
send 01 010000C201
reply 01 00

case an empty message is applied
group framing
rule A message may have no element, and is then applied and changes nothing.
send 01 -
reply 01 00

case frames may follow at once
group framing
rule Frames may follow one another without a pause, and each is answered in its turn.
send 01 010000C201
send 02 -
send 03 010000C202
reply 01..03 00

case bytes between frames are passed over
group framing
rule Bytes outside of FE and FF say nothing, whatever they are.
bytes 0011FD03
send 01 010000C201
bytes 1234FDFD99
send 02 -
bytes 07
reply 01..02 00

case an end outside a frame is passed over
group framing
rule An FF with no FE before it ends nothing.
bytes FFFF
send 01 -
bytes FF
send 02 -
reply 01..02 00

case the longest message is applied
group framing
rule A message may have 255 bytes.
send 01 0100000000x51
reply 01 00

case a frame may come byte by byte
group framing
rule What is found in a stream doesn't depend on where it was cut.
in pieces of 1
send 01 010000C201
send 02 -
reply 01..02 00

case pieces may hold parts of two frames
group framing
rule The end of a frame and the start of the next may come together.
in pieces of 7
send 01 010000C201
send 02 -
send 03 010000FEFF
send 04 -
reply 01..04 00

case a frame to all is answered
group framing
rule Address 0000 is for every encoder, and the reply comes from the encoder's own address.
send 01 - to all
reply 01 00

case a frame to all encoders of the site is answered
group framing
rule Encoder 0 of a site stands for every encoder there.
send 01 - to all encoders
reply 01 00

case a frame to all sites is answered
group framing
rule Site 0 stands for every site.
send 01 - to all sites
reply 01 00

case a frame to another encoder is passed over
group framing
rule A frame to another encoder of the site is not applied, not kept and not answered.
send 01 99 to another encoder
nothing
send 01 010000C201
reply 01 00

case a frame to another site is passed over
group framing
rule A frame to another site is not applied, not kept and not answered.
send 01 99 to another site
nothing
send 01 010000C201
reply 01 00

# ---- Stuffing

case stuffed bytes of a message
group stuffing
rule FD, FE and FF inside of a frame are sent as FD 00, FD 01 and FD 02.
send 01 010000FEFF
send 02 010000FDFE
send 03 010000FFFD
reply 01..03 00

case a message stuffed throughout
group stuffing
rule Length and check are made before stuffing, so the longest message may be longer on the line.
send 01 010000FFFFx51
reply 01 00

case stuffed counters and checks
group stuffing
rule Counters and checks are stuffed as all else is, in frames and in replies.
send 01..FF -
reply 01..FF 00

case a stuffed byte may be cut in two
group stuffing
rule An FD and the byte after it may come in two pieces.
in pieces of 1
send 01 010000FFFE
send 02 010000FDFD
reply 01..02 00

# ---- Faults

case a damaged check
group faults
rule A frame whose check is wrong is dropped: it is not applied, not kept and not answered.
send 01 99 with check damaged
nothing
send 01 010000C201
reply 01 00

case a damaged counter
group faults
rule The check covers the counter: a kept counter in a damaged frame gets no reply.
send 01 99 with byte 2 as 81
nothing
send 01 -
reply 01 00

case a damaged message
group faults
rule The check covers the message.
send 01 010000C201 with byte 7 as C3
nothing
send 01 -
reply 01 00

case a length that is too great
group faults
rule A frame whose length says more bytes than its message has is dropped, also with a good check.
send 01 99 with length 02
nothing
send 01 -
reply 01 00

case a length that is too small
group faults
rule A frame whose length says fewer bytes than its message has is dropped, also with a good check.
send 01 99 with length 00
nothing
send 01 -
reply 01 00

case a byte that is lost
group faults
rule A frame of which a byte was lost is dropped.
send 01 010000C201 with byte 6 as -
nothing
send 01 -
reply 01 00

case a byte that comes twice
group faults
rule A frame of which a byte came twice is dropped.
send 01 010000C201 with byte 6 as 0000
nothing
send 01 -
reply 01 00

case bad stuffing
group faults
rule A segment in which FD is not followed by 00, 01 or 02 is dropped.
send 01 99 with byte 4 as FD03
nothing
send 01 -
reply 01 00

case an FD before the end
group faults
rule A segment whose FD has the end behind it is dropped.
send 01 99 with byte 6 as FD
nothing
send 01 -
reply 01 00

case an FE inside of a frame
group faults
rule An FE begins a new segment wherever it stands, and what was open is dropped.
send 01 9999 with byte 4 as FE
nothing
send 01 -
reply 01 00

case an FF inside of a frame
group faults
rule An FF ends the segment wherever it stands, and what follows says nothing.
send 01 9999 with byte 4 as FF
nothing
send 01 -
reply 01 00

case a frame that breaks off
group faults
rule A frame that begins while another is open is heard, and the one that broke off is dropped.
send 01 99 cut after 3 bytes
nothing
send 01 010000C201
reply 01 00

case a frame that breaks off inside a stuffed byte
group faults
rule An FD at the end of a frame that broke off takes nothing from the next.
send 01 99 cut after 4 bytes
bytes FD
nothing
send 01 010000C201
reply 01 00

case a frame without its end
group faults
rule A frame is not heard before its FF came, and not where a new FE comes in its place.
send 01 99 cut after 7 bytes
nothing
send 01 -
reply 01 00

case an empty segment
group faults
rule FE and FF with nothing between them are dropped.
bytes FEFFFEFF
nothing
send 01 -
reply 01 00

case a segment of five bytes
group faults
rule A segment with fewer than 6 plain bytes is dropped.
bytes FE0000010000FF
nothing
send 01 -
reply 01 00

case a segment that is too long
group faults
rule A segment of more than 261 plain bytes is dropped, however long it is, and the next frame is heard.
bytes FE
bytes 00x3000
bytes FF
nothing
send 01 -
reply 01 00

case starts without an end
group faults
rule Of several FE the last one begins the frame.
bytes FEFEFEFE
nothing
send 01 -
reply 01 00

# ---- Numbering

case counters rise by one
group numbering
rule Messages are numbered 01, 02 and so on, and each is answered under its own counter.
send 01..10 -
reply 01..10 00

case a frame without a number
group numbering
rule Counter 00 is no number: such a frame is not applied, not kept and not answered.
send 00 99
nothing
send 00 010000C201
nothing
send 01 -
reply 01 00

case after FF comes 01
group numbering
rule After counter FF comes 01 again, and a counter that is used again is a new message.
send 01..FF -
send 01..80 -
reply 01..FF 00
reply 01..80 00

case 00 does not follow FF
group numbering
rule After FF a frame with counter 00 is passed over, and 01 is the next.
send 01..FF -
reply 01..FF 00
send 00 -
nothing
send 01 -
reply 01 00

case a frame that is not next
group numbering
rule A frame whose counter is neither kept nor the next is not applied, not kept and not answered.
send 02 99
nothing
send 01 -
send 02 -
reply 01..02 00

case the counters that are not kept
group numbering
rule Of all counters 127 are kept and one is the next; each of the others is passed over.
send 02..80 99
nothing
send 01..80 -
reply 01..80 00

# ---- Retries

case a retry gets the kept reply
group retries
rule A frame that comes again gets the reply that it had.
send 01 010000C201
reply 01 00
send 01 010000C201
reply 01 00

case a retry may come often
group retries
rule However often a frame comes, each copy gets the reply.
send 01 010000C201
send 01 010000C201
send 01 010000C201
send 01 010000C201
send 01 010000C201
reply 01 00
reply 01 00
reply 01 00
reply 01 00
reply 01 00

case a kept reply is for the counter
group retries
rule A frame under a kept counter gets the kept reply and is not looked into, whatever its message is.
send 01 -
reply 01 00
send 01 99
reply 01 00

case a retry of the one before
group retries
rule An older message may be sent again after a newer one, and the next counter stays the next.
send 01 -
send 02 -
send 01 99
send 03 -
reply 01 00
reply 02 00
reply 01 00
reply 03 00

case the replies of joining are kept
group retries
rule After joining the replies to 81 .. FF are kept, 127 in all.
send 81..FF 99
reply 81..FF 00
send 01 -
reply 01 00

case the last 127 replies are kept
group retries
rule The reply to a message is kept until 127 newer messages were applied.
send 01..7F -
reply 01..7F 00
send 01 99
reply 01 00
send 7F 99
reply 7F 00

case the 128th newest reply is forgotten
group retries
rule A message whose reply is no longer kept is passed over when it comes again.
send 01..80 -
reply 01..80 00
send 01 99
nothing
send 02 99
reply 02 00

case a retry that is damaged
group retries
rule A damaged copy gets no reply, and the next good one does.
send 01 -
reply 01 00
send 01 - with check damaged
nothing
send 01 -
reply 01 00

case a retry to another address
group retries
rule A copy gets the kept reply by whichever address it reaches the encoder, and none where it does not.
send 01 - to all
reply 01 00
send 01 -
reply 01 00
send 01 - to another encoder
nothing

case a refusal is kept
group retries
rule A message that was refused gets the same reply when it comes again.
profile
send 01 99
reply 01 03
send 01 99
reply 01 03
send 01 -
reply 01 03

# What an encoder holds is seen only where a buffer is full, and how many texts a device holds is its own. So the
# message comes 40 times: one that acts each time leaves no room for the next text where the buffer holds up to 41. What
# is asked of a device is that it holds three texts, and bits 6 and 5 of a RadioText's head: 00 replaces, 10 adds. Those
# bits are this project's reading (docs/PROTOCOL.md); a device that takes every text as one that replaces keeps the case
# too.
case a retry acts once
group retries
rule A message that adds a text adds it once, however often it comes: there is room for the next.
send 01 0A000003004849
reply 01 00
send 02 0A000003404849
send 02 0A000003404849
send 02 0A000003404849
send 02 0A000003404849
send 02 0A000003404849
send 02 0A000003404849
send 02 0A000003404849
send 02 0A000003404849
send 02 0A000003404849
send 02 0A000003404849
send 02 0A000003404849
send 02 0A000003404849
send 02 0A000003404849
send 02 0A000003404849
send 02 0A000003404849
send 02 0A000003404849
send 02 0A000003404849
send 02 0A000003404849
send 02 0A000003404849
send 02 0A000003404849
send 02 0A000003404849
send 02 0A000003404849
send 02 0A000003404849
send 02 0A000003404849
send 02 0A000003404849
send 02 0A000003404849
send 02 0A000003404849
send 02 0A000003404849
send 02 0A000003404849
send 02 0A000003404849
send 02 0A000003404849
send 02 0A000003404849
send 02 0A000003404849
send 02 0A000003404849
send 02 0A000003404849
send 02 0A000003404849
send 02 0A000003404849
send 02 0A000003404849
send 02 0A000003404849
send 02 0A000003404849
reply 02 00
reply 02 00
reply 02 00
reply 02 00
reply 02 00
reply 02 00
reply 02 00
reply 02 00
reply 02 00
reply 02 00
reply 02 00
reply 02 00
reply 02 00
reply 02 00
reply 02 00
reply 02 00
reply 02 00
reply 02 00
reply 02 00
reply 02 00
reply 02 00
reply 02 00
reply 02 00
reply 02 00
reply 02 00
reply 02 00
reply 02 00
reply 02 00
reply 02 00
reply 02 00
reply 02 00
reply 02 00
reply 02 00
reply 02 00
reply 02 00
reply 02 00
reply 02 00
reply 02 00
reply 02 00
reply 02 00
send 03 0A000003404849
reply 03 00

case a retry takes one of eight places
group retries
rule A message that adds a text takes one of the eight places of its buffer, however often it comes.
profile
send 01 0A000000
reply 01 00
send 02 0A000003404849
send 02 0A000003404849
send 02 0A000003404849
reply 02 00
reply 02 00
reply 02 00
send 03..09 0A000003404849
reply 03..09 00
send 0A 0A000003404849
reply 0A 0B

case a refusal stays when there is room
group retries
rule A refused message that comes again later is not applied, though it could be by then.
profile
send 01 0A000000
send 02..09 0A000003404849
send 0A 0A000003404849
reply 01..09 00
reply 0A 0B
send 0B 0A000000
reply 0B 00
send 0A 0A000003404849
reply 0A 0B

# ---- Order

case frames in reverse order
group order
rule Messages are applied in the order of their counters and in no other.
send 03 -
nothing
send 02 -
nothing
send 01 -
reply 01 00
send 03 -
nothing
send 02 -
reply 02 00
send 03 -
reply 03 00

case a frame ahead of its turn is not put by
group order
rule A frame that came ahead of its turn is as if it had been lost.
send 02 99
nothing
send 01 -
reply 01 00
send 02 -
reply 02 00

case a gap is not jumped
group order
rule Where a message is missing, none after it is applied.
send 01 -
reply 01 00
send 03..08 99
nothing
send 02..08 -
reply 02..08 00

case a frame ahead pushes nothing out
group order
rule A frame that is not next changes no kept reply.
send 05 99
nothing
send 81 99
reply 81 00
send 01 -
reply 01 00

# ---- Window

case eight messages at once
group window
rule Eight messages may be on their way, and each is answered in its turn.
send 01..08 010000C201
reply 01..08 00

case the first of eight is lost
group window
rule Where the first of a window is lost the others are passed over, and all come again.
send 02..08 99
nothing
send 01..08 -
reply 01..08 00

case one amid eight is damaged
group window
rule Where one of a window is damaged those behind it are passed over, and those before it are kept.
send 01..03 -
reply 01..03 00
send 04 - with check damaged
send 05..08 99
nothing
send 01..08 -
reply 01..08 00

case eight messages come again
group window
rule A whole window that comes again gets its replies again.
send 01..08 -
send 01..08 99
reply 01..08 00
reply 01..08 00

case a window over the end of the counters
group window
rule A window may hold FF and 01, and come again.
send 01..FB -
reply 01..FB 00
send FC..FF -
send 01..04 -
send FC..FF 99
send 01..04 99
reply FC..FF 00
reply 01..04 00
reply FC..FF 00
reply 01..04 00

case a window byte by byte
group window
rule Frames of a window may come in any pieces.
in pieces of 1
send 01..08 010000FEFF
reply 01..08 00

# ---- Refusals
#
# No element has the code 99, so a message that has one can't be applied, and neither can one that ends inside an
# element: that such a message is answered by another code than 00 is the standard's, which other code is not asked.
# Whether it left something is seen by a full buffer, as above: each of them would add eight texts, and at the end there
# must be room for one. What is asked of a device is that it holds two texts; one that holds more than 256 is not seen.

case an unknown element is refused
group refusals
rule A message that has an element that the encoder doesn't know is answered by another code than 00.
send 01 99
refusal 01
send 02 010000C20199
refusal 02
send 03 99010000C201
refusal 03

case a refused message adds nothing
group refusals
rule A message acts whole or not at all: where one element is unknown none acts, neither before it nor behind it.
send 01 0A000003004849
reply 01 00
send 02..21 0A00000240410A00000240410A00000240410A00000240410A00000240410A00000240410A00000240410A000002404199
refusal 02..21
send 22..41 990A00000240410A00000240410A00000240410A00000240410A00000240410A00000240410A00000240410A0000024041
refusal 22..41
send 42 0A000003404849
reply 42 00

case a message that is cut short adds nothing
group refusals
rule A message acts whole or not at all: where it ends inside an element none before that acts.
send 01 0A000003004849
reply 01 00
send 02..21 0A00000240410A00000240410A00000240410A00000240410A00000240410A00000240410A00000240410A00000240410A0000
refusal 02..21
send 22 0A000003404849
reply 22 00

case a refusal comes again
group refusals
rule A message that was refused is refused again when it comes again, whatever the copy's message is.
send 01 99
refusal 01
send 01 99
refusal 01
send 01 -
refusal 01

# ---- Store codes

case the code of an unknown element
group store codes
rule An element code that the encoder doesn't know is refused with 03.
profile
send 01 99
reply 01 03
send 02 00
reply 02 03

case the code of a data set that is not there
group store codes
rule A data set that is not there is refused with 04, and so is a selection that names several.
profile
send 01 010900C201
reply 01 04
send 02 1C09
reply 02 04
send 03 1CFE
reply 03 04
send 04 1CFF
reply 04 04

case the code of a service that is not there
group store codes
rule A programme service that is not configured is refused with 05.
profile
send 01 0100F7C201
reply 01 05

case the code of a value out of range
group store codes
rule A programme type or group type above 1F, and a buffer rule of 01 or 11, are refused with 06.
profile
send 01 07000020
reply 01 06
send 02 24204012345678
reply 02 06
send 03 24002012345678
reply 03 06
send 04 0A0000022041
reply 04 06
send 05 0A0000026041
reply 05 06

case values that are in range
group store codes
rule Programme type 1F is taken, and so are the data set numbers for all, for the others and for the current one.
profile
send 01 0700001F
send 02 01FF00C201
send 03 01FE00C201
send 04 1C00
reply 01..04 00

case the code of a wrong length
group store codes
rule A RadioText length above 41, and a message that ends inside an element, are refused with 07.
profile
send 01 0A00004240
reply 01 07
send 02 010000C2
reply 02 07
send 03 0A0000
reply 03 07
send 04 01
reply 04 07

case the code of an acknowledgement
group store codes
rule An acknowledgement that is sent to an encoder is refused with 09.
profile
send 01 180001
reply 01 09

case the code of a full text buffer
group store codes
rule A ninth text of a service is refused with 0B, and there is room again once the texts are emptied.
profile
send 01 0A000000
send 02..09 0A000003404849
reply 01..09 00
send 0A 0A000003404849
reply 0A 0B
send 0B 0A000000
send 0C 0A000003404849
reply 0B..0C 00

case the code of a full queue of groups
group store codes
rule A 33rd group is refused with 0B, and one that empties the queue is not.
profile
send 01 24000012345678
send 02..20 24004012345678
reply 01..20 00
send 21 24004012345678
reply 21 0B
send 22 24000012345678
reply 22 00

case a text that empties the buffer
group store codes
rule A text with buffer rule 00 is alone in its buffer.
profile
send 01 0A000000
send 02..09 0A000003404849
send 0A 0A000003004849
send 0B..11 0A000003404849
reply 01..11 00
send 12 0A000003404849
reply 12 0B

case a message is whole or none
group store codes
rule Where one element is refused, nothing of its message is kept.
profile
send 01 0A000000
reply 01 00
send 02 0A000003404849x9
reply 02 0B
send 03 0A00000340484999
reply 03 03
send 04 0A000003404849x8
reply 04 00
send 05 0A000003404849
reply 05 0B

case the first refusal is told
group store codes
rule The reply has the code of the first element that is refused or can't be read.
profile
send 01 0700002099
reply 01 06
send 02 9907000020
reply 02 03
send 03 010000C201180001
reply 03 09

case the order of refusals
group store codes
rule Of several refusals of one element the data set's comes first, then the service's, then the range's, then fullness.
profile
send 01 0709F720
reply 01 04
send 02 0700F720
reply 02 05
send 03 0A000000
send 04..0B 0A000003404849
reply 03..0B 00
send 0C 0A0000026041
reply 0C 06
send 0D 0A00F7024041
reply 0D 05
";
