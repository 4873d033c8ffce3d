/// What is wanted of a script over several datasets of one file, in the form of the other rows.
///
/// Of two names of one letter the root group's header has 71 bytes, and ends at 119; the headers of the datasets stand there and behind the
/// first one's blocks. A flush has a part for each dataset with rows, in the order of the names: its chunks, a superblock where the file grows,
/// the blocks of its array, its header.
pub const SCRIPT_ROWS: &str = "
# rows of two datasets come part after part
$ play --type i32le --chunk 2 --name a,b
append 1 2 3 => appended 3
use 2 => using 2
append 9 => appended 1
flush => flushing 6 5
write 6 => written 6 pending 5
open 1 => reader 1 open
look 1 9 => reader 1 rows 0
use 1 => using 1
open 2 => reader 2 open
look 2 9 => reader 2 rows 3
write 5 => written 5 pending 0
refresh 1 => reader 1 refresh
look 1 9 => reader 1 rows 1
read 1 0 1 => reader 1 read
look 1 9 => reader 1 values 9
read 2 1 2 => reader 2 read
look 2 9 => reader 2 values 2 3
read 1 0 2 => reader 1 outofrows 0 2 1

# pieces of one dataset are waited for by both
$ play --type i32le --chunk 2 --name a,b
append 1 => appended 1
flush => flushing 5 0
use 2 => using 2
append 9 => busy 5
flush => busy 5
write 4 => written 4 pending 1
append 9 => busy 1
write 9 => written 1 pending 0
append 9 => appended 1
flush => flushing 0 5
write 5 => written 5 pending 0
flush => flushing 0 0
write 1 => written 0 pending 0

# a reader is of the dataset in use at its opening, and stays so
$ play --type i32le --chunk 2 --name a,b
open 1 => reader 1 open
use 2 => using 2
open 1 => reader 1 exists
open 2 => reader 2 open
append 7 8 => appended 2
use 1 => using 1
append 5 => appended 1
flush => flushing 5 5
write 10 => written 10 pending 0
look 2 9 => reader 2 rows 2
look 1 9 => reader 1 rows 1
refresh 3 => reader 3 none
look 1 1 => reader 1 idle

# the last piece of a part comes between the looks of the one attempt of its reader, and of the other dataset's
$ play --type i32le --chunk 2 --attempts 1 --name a,b
open 1 => reader 1 open
look 1 9 => reader 1 rows 0
use 2 => using 2
open 2 => reader 2 open
look 2 9 => reader 2 rows 0
append 7 => appended 1
flush => flushing 0 5
write 5 => written 5 pending 0
append 8 => appended 2
refresh 1 => reader 1 refresh
refresh 2 => reader 2 refresh
look 2 1 => reader 2 looking
flush => flushing 0 2
write 2 => written 2 pending 0
look 1 9 => reader 1 rows 0
look 2 9 => reader 2 again 1

# no place for the rows of the second dataset: the whole flush is refused
$ play --type i32le --chunk 256 --limit 3000 --name a,b
append 7 => appended 1
use 2 => using 2
append 8 => appended 1
flush => full space 2051 1024 3000
flush => full space 2051 1024 3000
open 1 => reader 1 open
look 1 9 => reader 1 rows 0
append 9 => appended 2

# a writer that stops drops the pieces of both
$ play --type i32le --chunk 2 --name a,b
append 1 => appended 1
use 2 => using 2
append 2 => appended 1
flush => flushing 5 5
write 7 => written 7 pending 3
stop => stopped
open 1 => reader 1 open
look 1 9 => reader 1 rows 0
use 1 => using 1
open 2 => reader 2 open
look 2 9 => reader 2 rows 1
append 3 => stopped
flush => stopped
use 2 => using 2
append 3 => stopped
write 9 => written 0 pending 0

# eight datasets, the last of which has a row of the eight
$ play --type u8 --chunk 1 --name a,b,c,d,e,f,g,h
use 8 => using 8
append 255 => appended 1
append 256 => outofrange 0 256
use 1 => using 1
append 1 => appended 1
flush => flushing 5 0 0 0 0 0 0 5
write 9 => written 9 pending 1
open 1 => reader 1 open
look 1 9 => reader 1 rows 1
use 8 => using 8
open 8 => reader 8 open
look 8 9 => reader 8 rows 0
write 1 => written 1 pending 0
refresh 8 => reader 8 refresh
look 8 9 => reader 8 rows 1

# two dimensions, whose trees grow one after another
$ play --type i16le --chunk 1 --columns 2 --width 2 --name a,b
append 1 2 => appended 1
use 2 => using 2
append 3 4 5 6 => appended 2
append 7 => error line 4
= 8

# a third dataset of two
$ play --type i32le --chunk 2 --name a,b
append 1 => appended 1
use 3 => error line 2
= 8

# no dataset of two has the number 0
$ play --type i32le --chunk 2 --name a,b
use 0 => error line 1
= 8

# a number that is none
$ play --type i32le --chunk 2 --name a,b
use b => error line 1
= 8

# the sink fails in the second of two replies
$ play --type i32le --chunk 2 --name a,b
sink 2
use 2 => using 2
append 1
= 12

# the source fails behind a line
$ play --type i32le --chunk 2 --name a,b
source 2
use 2 => using 2
=> error source
= 11
";
