//! The page that tells the phrases (profile).

/// The phrases, an example each. `tests/run/phrases_page` gives each example to the program.
pub const PHRASES: &str = "\
The phrases in which messages are said: what send and make --words read

A line is one message: phrases, with semicolons between. A phrase is one
element. Lines are UTF-8; one that is empty or begins with # is passed over.

    pi C201; ps \"RADIO 1\"; pty \"Pop Music\"; music

A phrase                            What it sets
    pi C201                         PI, four hexadecimal digits
    ps \"RADIO 1\"                    the name, at most 8 characters
    rt \"Now: the concert\"           a RadioText, at most 64 characters; the A/B
                                    flag turns, and the texts before are gone
    rt \"Next: the news\" add         one more text, behind those that are there
    rt \"Now: the concerto\" same     the flag stays: for a letter put right
    rt \"Phone 555 01\" times 3       sent so often, 0 to 15; 0 is without end
    rt \"Phone 555 01\" add times 3   add, same and times: in any order
    rt clear                        no text
    traffic none                    TP off, TA off
    traffic eon                     TP off, TA on: announcements elsewhere
    traffic programme               TP on, TA off: it gives announcements
    traffic announcement            TP on, TA on: one is on the air
    ta on                           an announcement begins
    ta off                          it is over; TP stays on
    tp on                           it gives announcements
    tp off                          it gives none
    music                           MS is music
    speech                          MS is speech
    pty \"Pop Music\"                 the programme type by its name, or
    pty 10                          by its number, 0 to 31

A phrase                            What else it does
    set 2                           data set 2 is the current one
    set others                      all others; an encoder refuses it
    set all                         all sets; an encoder refuses it
    group 8A 00 1234 5678           a free-format group: its type 0A to 15B,
                                    the last bits of block 2, blocks 3 and 4
    group 8A 00 1234 5678 add       one more, behind those that wait
    ack 0B 12                       an acknowledgement: its code and counter
    raw 99 00                       bytes as they are

Where it acts stands before it; not before set, group, ack and raw. Without
it that is the main service of the current set.

    in 2 ps \"RADIO 1\"               in data set 2
    in others rt clear              in all sets but the current one
    in all pi C201                  in all sets
    for 0A ps \"LOCAL 1\"             for the programme service 0A
    in 2 for 0A rt \"Good night\"     both, in this order

The same elements by their bytes, where a bit has no name

    traffic bits FC
    ms bits 03
    pty bits 20
    rt bits A0 \"HI\"
    group bits 20 80 1234 5678

A string stands between quotes, and is of characters of the RDS set

    rt \"Café\"                       a character as it is
    rt \"say \\\"hi\\\" or C:\\\\\"           \\\" is a quote, \\\\ a backslash
    rt \"Caf\\u00E9\"                  \\u and four digits: a character
    rt \"one\\x0Dtwo\"                 \\x and two digits: a byte

uecp quote writes any text as such a string. The first word of a phrase is
read in any case, all others are as they stand here.

make --words and show --words have one more line, the address and the counter
of the next message:

    frame 0041 10
";
