/// What is wanted of the whole program: a row is its name behind `#`, the files before it behind `+`, and steps on one disk.
/// A step is the program's words behind `$`, then a line each:
///
/// - `LINE => REPLY`: a line of the input, and the line that answers it; `LINE` one that is not answered; `=> TEXT` a line
///   of text that no line of the input asks for; in a line of the input `WORD*COUNT` is a word so often;
/// - `= STATUS`, which is 0 where it is left out;
/// - `+ NAME BYTES`: a file after it;
/// - `source N`, `sink N`: the call of the source or of the sink that fails.
///
/// Places and numbers of pieces are counted by the format's lengths. The header of a dataset begins at 102 and the length of
/// its name, and has 82, 84 or 86 bytes, as the rows of a chunk need 1, 2 or 4; an array's two blocks have 72 and 298; then
/// chunks stand. A flush has a piece for each 512 bytes of a chunk, and one each for the superblock, where the file grows, both
/// blocks of the array, where an address is new, and the dataset's header.
pub const ROWS: &str = "
# a reader before and after a flush
$ play --type i32le --chunk 2
append 1 2 3 => appended 3
flush => flushing 6
write 5 => written 5 pending 1
open 1 => reader 1 open
look 1 9 => reader 1 rows 0
write 1 => written 1 pending 0
refresh 1 => reader 1 refresh
look 1 3 => reader 1 looking
look 1 1 => reader 1 rows 3
read 1 0 3 => reader 1 read
look 1 9 => reader 1 values 1 2 3
read 1 2 2 => reader 1 outofrows 2 2 3
read 1 3 0 => reader 1 values

# a commit between the looks of the one attempt
$ play --type i32le --chunk 2 --attempts 1
append 1 2 3 => appended 3
open 1 => reader 1 open
look 1 9 => reader 1 rows 0
flush => flushing 6
write 9 => written 6 pending 0
refresh 1 => reader 1 refresh
look 1 1 => reader 1 looking
append 4 => appended 4
flush => flushing 2
write 2 => written 2 pending 0
look 1 9 => reader 1 again 1

# a commit between the looks of the first of two attempts
$ play --type i32le --chunk 2 --attempts 2
append 1 2 3 => appended 3
open 1 => reader 1 open
look 1 9 => reader 1 rows 0
flush => flushing 6
write 9 => written 6 pending 0
refresh 1 => reader 1 refresh
look 1 1 => reader 1 looking
append 4 => appended 4
flush => flushing 2
write 2 => written 2 pending 0
look 1 9 => reader 1 rows 4

# the attempts where none are given
$ play --chunk 2 --type i32le
append 1 2 3 => appended 3
open 1 => reader 1 open
look 1 9 => reader 1 rows 0
flush => flushing 6
write 9 => written 6 pending 0
refresh 1 => reader 1 refresh
look 1 1 => reader 1 looking
append 4 => appended 4
flush => flushing 2
write 2 => written 2 pending 0
look 1 9 => reader 1 rows 4

# a flush of no rows between the looks
$ play --type i32le --chunk 2 --attempts 1
append 1 2 3 => appended 3
open 1 => reader 1 open
look 1 9 => reader 1 rows 0
flush => flushing 6
write 9 => written 6 pending 0
refresh 1 => reader 1 refresh
look 1 1 => reader 1 looking
flush => flushing 0
write 2 => written 0 pending 0
look 1 9 => reader 1 rows 3

# a reader held over two flushes in the one attempt
$ play --type i32le --chunk 2 --attempts 1
append 1 2 3 => appended 3
flush => flushing 6
write 9 => written 6 pending 0
open 1 => reader 1 open
look 1 3 => reader 1 looking
append 4 => appended 4
flush => flushing 2
write 9 => written 2 pending 0
append 5 => appended 5
flush => flushing 5
write 9 => written 5 pending 0
look 1 9 => reader 1 again 1

# a reader held over two flushes in the first of two attempts
$ play --type i32le --chunk 2 --attempts 2
append 1 2 3 => appended 3
flush => flushing 6
write 9 => written 6 pending 0
open 1 => reader 1 open
look 1 3 => reader 1 looking
append 4 => appended 4
flush => flushing 2
write 9 => written 2 pending 0
append 5 => appended 5
flush => flushing 5
write 9 => written 5 pending 0
look 1 9 => reader 1 rows 5

# rows and flushes while pieces are pending
$ play --type i32le --chunk 2
append 1 2 3 => appended 3
flush => flushing 6
append 5 => busy 6
flush => busy 6
write 9 => written 6 pending 0
append 4 => appended 4
flush => flushing 2
write 1 => written 1 pending 1
write 1 => written 1 pending 0
write 1 => written 0 pending 0

# a stop before the last piece
$ play --type i32le --chunk 2
append 1 2 3 => appended 3
flush => flushing 6
write 5 => written 5 pending 1
stop => stopped
write 1 => written 0 pending 0
append 9 => stopped
flush => stopped
stop => stopped
open 1 => reader 1 open
look 1 9 => reader 1 rows 0

# calls of readers that are not there, or busy, or idle
$ play --type i32le --chunk 2
look 16 1 => reader 16 none
refresh 1 => reader 1 none
read 1 0 0 => reader 1 none
open 16 => reader 16 open
open 16 => reader 16 exists
refresh 16 => reader 16 busy
read 16 0 0 => reader 16 busy
look 16 18446744073709551615 => reader 16 rows 0
look 16 1 => reader 16 idle
read 16 0 1 => reader 16 outofrows 0 1 0

# an empty input
$ play --type i32le --chunk 2

# a flush of no rows
$ play --type i32le --chunk 2
flush => flushing 0
write 2 => written 0 pending 0

# values outside the type
$ play --type i32le --chunk 1
append 2147483648 => outofrange 0 2147483648
append 2147483647 -2147483649 => outofrange 1 -2147483649
append -2147483648 2147483647 => appended 2
flush => flushing 6
write 6 => written 6 pending 0
open 1 => reader 1 open
look 1 9 => reader 1 rows 2
read 1 0 2 => reader 1 read
look 1 9 => reader 1 values -2147483648 2147483647

# a value outside the type, pending pieces, a stop: what is said where several hold
$ play --type i32le --chunk 1
append 1 2147483648 3 4 5 => outofrange 1 2147483648
append 1 => appended 1
flush => flushing 5
append 2147483648 => busy 5
stop => stopped
append 2147483648 => stopped

# a flush without a place
$ play --type i32le --chunk 128 --limit 1024
append 1 => appended 1
flush => full space 558 512 1024
flush => full space 558 512 1024
append 2 => appended 2
write 1 => written 0 pending 0
open 1 => reader 1 open
look 1 9 => reader 1 rows 0

# a chunk that ends just within the limit
$ play --type i32le --chunk 116 --limit 1024
append 1 => appended 1
flush => flushing 5

# a chunk that ends just past the limit
$ play --type i32le --chunk 117 --limit 1024
append 1 => appended 1
flush => full space 558 468 1024

# the places behind a name of one byte
$ play --type i32le --chunk 128 --limit 1024 --name d
append 1 => appended 1
flush => full space 555 512 1024

# a reader of a name of one byte
$ play --type i32le --chunk 2 --name d
append 7 => appended 1
flush => flushing 5
write 9 => written 5 pending 0
open 1 => reader 1 open
look 1 9 => reader 1 rows 1
read 1 0 1 => reader 1 read
look 1 9 => reader 1 values 7

# the places behind a name of 64 bytes
$ play --type i32le --chunk 128 --limit 1024 --name nnnnnnnnnnnnnnnnnnnnnnnnnnnnnnnnnnnnnnnnnnnnnnnnnnnnnnnnnnnnnnnn
append 1 => appended 1
flush => full space 618 512 1024

# a reader of a name of 64 bytes
$ play --type i32le --chunk 2 --name nnnnnnnnnnnnnnnnnnnnnnnnnnnnnnnnnnnnnnnnnnnnnnnnnnnnnnnnnnnnnnnn
append 7 => appended 1
flush => flushing 5
write 9 => written 5 pending 0
open 1 => reader 1 open
look 1 9 => reader 1 rows 1
read 1 0 1 => reader 1 read
look 1 9 => reader 1 values 7

# the places behind a header of chunks of 255 rows
$ play --type i32le --chunk 255 --limit 1024
append 7 => appended 1
flush => full space 558 1020 1024

# a reader of chunks of 255 rows
$ play --type i32le --chunk 255
append 7 -8 => appended 2
flush => flushing 6
write 18446744073709551615 => written 6 pending 0
open 1 => reader 1 open
look 1 9 => reader 1 rows 2
read 1 0 2 => reader 1 read
look 1 9 => reader 1 values 7 -8

# the places behind a header of chunks of 256 rows
$ play --type i32le --chunk 256 --limit 1024
append 7 => appended 1
flush => full space 560 1024 1024

# a reader of chunks of 256 rows
$ play --type i32le --chunk 256
append 7 -8 => appended 2
flush => flushing 6
write 18446744073709551615 => written 6 pending 0
open 1 => reader 1 open
look 1 9 => reader 1 rows 2
read 1 0 2 => reader 1 read
look 1 9 => reader 1 values 7 -8

# the places behind a header of chunks of 65,535 rows
$ play --type i32le --chunk 65535 --limit 1024
append 7 => appended 1
flush => full space 560 262140 1024

# a reader of chunks of 65,535 rows, of which the first is past the budget
$ play --type i32le --chunk 65535
append 7 -8 => appended 2 pending 512
write 18446744073709551615 => written 512 pending 0
flush => flushing 4
write 18446744073709551615 => written 4 pending 0
open 1 => reader 1 open
look 1 9 => reader 1 rows 2
read 1 0 2 => reader 1 read
look 1 9 => reader 1 values 7 -8

# the places behind a header of chunks of 65,536 rows
$ play --type i32le --chunk 65536 --limit 1024
append 7 => appended 1
flush => full space 562 262144 1024

# a reader of chunks of 65,536 rows
$ play --type i32le --chunk 65536 --budget 1073741824
append 7 -8 => appended 2
flush => flushing 516
write 18446744073709551615 => written 516 pending 0
open 1 => reader 1 open
look 1 9 => reader 1 rows 2
read 1 0 2 => reader 1 read
look 1 9 => reader 1 values 7 -8

# the one dataset is named to be in use
$ play --type i32le --chunk 2
use 1 => using 1
append 1 2 3 => appended 3
use 1 => using 1
flush => flushing 6
write 9 => written 6 pending 0
open 1 => reader 1 open
look 1 9 => reader 1 rows 3

# a second dataset is named, and there is one
$ play --type i32le --chunk 2
append 1 => appended 1
use 2 => error line 2
= 8

# no dataset has the number 0
$ play --type i32le --chunk 2
use 0 => error line 1
= 8

# the number of a dataset begins with no 0
$ play --type i32le --chunk 2
use 01 => error line 1
= 8

# a dataset in use has one number
$ play --type i32le --chunk 2
use 1 1 => error line 1
= 8

# a dataset in use has a number
$ play --type i32le --chunk 2
use => error line 1
= 8

# an empty line
$ play --type i32le --chunk 2
 => error line 1
= 8

# a line outside the grammar, behind which nothing is answered
$ play --type i32le --chunk 2
append 1 => appended 1
x => error line 2
append 2
= 8

# a word too many
$ play --type i32le --chunk 2
flush => flushing 0
stop 1 => error line 2
= 8

# a reader's number past 16
$ play --type i32le --chunk 2
open 17 => error line 1
= 8

# no pieces to write
$ play --type i32le --chunk 2
write 0 => error line 1
= 8

# no words
$
flush
=> error usage
= 2

# no command
$ 
flush
=> error usage
= 2

# another command
$ record --type i32le --chunk 2
flush
=> error usage
= 2

# a request for help
$ play --help
flush
=> error usage
= 2

# a value past its limit
$ play --type i32le --chunk 2 --limit 1023
flush
=> error usage
= 2

# files that the words do not name
+ data abc
$ play --type i32le --chunk 2
+ data abc
append 1 => appended 1

# a source that fails at its first call
$ play --type i32le --chunk 2
source 1
append 1
=> error source
= 11

# a source that fails behind a line
$ play --type i32le --chunk 2
source 2
append 1 => appended 1
=> error source
= 11

# a source that would fail behind its end
$ play --type i32le --chunk 2
source 3
append 1 => appended 1

# a sink that fails at its first call
$ play --type i32le --chunk 2
sink 1
append 1
flush
x
= 12

# a sink that fails at its second call
$ play --type i32le --chunk 2
sink 2
append 1 => appended 1
flush
x
= 12

# a sink that fails at the line of an error
$ play --type i32le --chunk 2
sink 3
append 1 => appended 1
flush => flushing 5
x
= 12

# a sink that would fail behind the line of an error
$ play --type i32le --chunk 2
sink 4
append 1 => appended 1
flush => flushing 5
x => error line 3
= 8

# a sink that fails at the line of other words
$ 
sink 1
flush
= 12

# files in memory of some counts and seeds
$ make 1 0
=> rows 1 sum 167951807 pieces 11 blocks 5
$ make 0 5
=> rows 0 sum 0 pieces 6 blocks 5
$ make 257 0
=> rows 257 sum 270151382687 pieces 16 blocks 6
$ make 1000 0
=> rows 1000 sum 1060360335704 pieces 27 blocks 6
$ make 1001 0
=> rows 1001 sum 1061040695884 pieces 29 blocks 6
$ make 1 18446744073709551615
=> rows 1 sum 1574552488 pieces 11 blocks 5

# a file in memory, which needs neither source nor disk
$ make 1 0
disk 1
source 1
flush
=> rows 1 sum 167951807 pieces 11 blocks 5

# a file in memory, and a sink that fails
$ make 1 0
sink 1
= 12

# words outside the command set, of a file in memory
$ make
=> error usage
= 2
$ make 1
=> error usage
= 2
$ make 1000001 0
=> error usage
= 2
$ make 1 18446744073709551616
=> error usage
= 2
$ make 01 0
=> error usage
= 2
$ make -1 0
=> error usage
= 2
";
