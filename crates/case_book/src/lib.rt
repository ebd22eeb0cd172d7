//! Plays books of cases: worked calls of a program, over files and a sink in memory.
//!
//! For each case there is a line, its title. Above the title of a case that failed stand the entry at which it
//! did, and what its last call gave.
//!
//! # Books
//!
//! A line `case TITLE` begins a case, which goes up to the next one. What stands above the first is
//! done at the beginning of every case. A book without any case counts as one that failed. Empty lines
//! are passed over, and so are lines that begin with `#`. All else are entries, a head and the lines of
//! its body, which are done in their order.
//!
//! | Head | Body | What it does |
//! |---|---|---|
//! | `file NAME` | its bytes | makes the name hold them; this is no call of the files |
//! | `image NAME` | instruction words | the same of the plain image file of these words, with entry 0 |
//! | `failing files N` | | the files' call N of the case fails; gets and puts are counted together |
//! | `failing sink N` | | put N of the next call's sink fails |
//! | `reserve sink N` | | the next call's sink has room for N bytes |
//! | `call WORDS` | | calls the program with a sink of its own, over the files as they are |
//! | `gives STATUS` | text | the call gave this status, and printed this and nothing else |
//! | `gives STATUS part` | text | the same, but it printed a first part of this: not nothing, and not all |
//! | `gives STATUS bytes N` | | the same, but it printed N bytes |
//! | `holds NAME` | its bytes | the name holds these |
//! | `sums LINES DIGEST NAME` | | the name holds so many lines, and bytes of this SHA-256 |
//! | `lines FIRST LAST NAME` | text | these lines of what the name holds are this |
//! | `lacks NAME` | | the name holds nothing |
//!
//! A body is all that its lines say, one after the other; without a line it is empty.
//!
//! | Line | Bytes |
//! |---|---|
//! | `\| TEXT` | the text and byte 10; a lone `\|` is an empty line |
//! | `+ TEXT` | the text alone |
//! | `= HEX HEX` | two digits a byte, in groups of any size |
//! | `* COUNT HEX HEX` | the same, so many times |
//!
//! Names are the rest of the line, blanks too, and aren't empty. Words are parted by blanks; between
//! two quotes stands one word, which may be empty and may have blanks, but no quote. Calls and puts
//! count from 1, and so do the lines of a file, of which the last may lack its end. Numbers are decimal: N,
//! LINES, FIRST and LAST are below 2^64, STATUS below 2^8, COUNT below 2^32. DIGEST has 64 digits in lower
//! case. A file that is too long for a book is told of by its sum, and by those of its lines that matter.
//!
//! A case fails where an entry can't be read, has a body where the table has none, or isn't met; where a
//! call isn't told of by one `gives`, before the next call and the case's end; where a `gives` stands
//! without a call; and where nothing is called. It ends at the first of these.
#![tactic(auto)]

mod body;
mod book;
mod long;
mod program;
mod stage;
mod words;

pub use book::{Tally, play};
pub use program::Program;
