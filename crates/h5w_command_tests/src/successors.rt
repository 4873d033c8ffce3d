/// What is wanted of a script in which another writer takes over from one that was stopped, in the form of the other rows. What is under way of the
/// stopped flush decides what the other one has to write: blocks that stand already are written where they stand.
pub const SUCCESSOR_ROWS: &str = "
# a stop behind the superblock with the new end: the next rows bring all blocks
$ play --type i32le --chunk 2
append 1 2 3 => appended 3
takeover => running
flush => flushing 6
write 3 => written 3 pending 3
takeover => running
stop => stopped
write 1 => written 0 pending 0
append 9 => stopped
open 1 => reader 1 open
look 1 9 => reader 1 rows 0
takeover => takeover 0
takeover => running
append 7 => appended 1
flush => flushing 5
write 5 => written 5 pending 0
refresh 1 => reader 1 refresh
look 1 9 => reader 1 rows 1
read 1 0 1 => reader 1 read
look 1 9 => reader 1 values 7

# a stop before the last piece: the chunk that stands is written whole
$ play --type i32le --chunk 2
append 1 2 3 => appended 3
flush => flushing 6
write 5 => written 5 pending 1
stop => stopped
open 1 => reader 1 open
look 1 9 => reader 1 rows 0
takeover => takeover 0
append 7 => appended 1
flush => flushing 2
write 2 => written 2 pending 0
refresh 1 => reader 1 refresh
look 1 9 => reader 1 rows 1
read 1 0 1 => reader 1 read
look 1 9 => reader 1 values 7

# rows that were flushed stay, those that wait are gone, and a call goes on
$ play --type i32le --chunk 2
append 1 2 3 => appended 3
flush => flushing 6
write 5 => written 5 pending 1
open 1 => reader 1 open
look 1 9 => reader 1 rows 0
write 1 => written 1 pending 0
append 4 5 => appended 5
refresh 1 => reader 1 refresh
look 1 1 => reader 1 looking
stop => stopped
takeover => takeover 3
look 1 9 => reader 1 rows 3
use 1 => using 1
append 6 => appended 4
flush => flushing 2
write 2 => written 2 pending 0
refresh 1 => reader 1 refresh
look 1 9 => reader 1 rows 4
read 1 2 2 => reader 1 read
look 1 9 => reader 1 values 3 6
stop => stopped
takeover => takeover 4
stop => stopped
takeover => takeover 4

# of two datasets one has its rows at the stop, and the other has not
$ play --type i32le --chunk 2 --name a,b
append 1 2 3 => appended 3
use 2 => using 2
append 9 => appended 1
flush => flushing 6 5
write 8 => written 8 pending 3
takeover => running
stop => stopped
open 1 => reader 1 open
look 1 9 => reader 1 rows 0
takeover => takeover 3 0
append 8 => appended 1
use 1 => using 1
append 4 => appended 4
flush => flushing 2 5
write 7 => written 7 pending 0
refresh 1 => reader 1 refresh
look 1 9 => reader 1 rows 1
read 1 0 1 => reader 1 read
look 1 9 => reader 1 values 8
open 2 => reader 2 open
look 2 9 => reader 2 rows 4
read 2 2 2 => reader 2 read
look 2 9 => reader 2 values 3 4

# what follows the word is no line of a script
$ play --type i32le --chunk 2
takeover 1 => error line 1
= 8
";
