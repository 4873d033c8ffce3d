/// What readers find wherever a writer stops, told as the other rows are.
///
/// By hand, from the numbers of pieces that the other tables have: a file is made by five pieces, of which the superblock is the last,
/// or by four where a tree finds its chunks, and the rows of a flush are found behind its last piece.
pub const STOP_ROWS: &str = "
# a writer without lines
$ stop --type i32le --chunk 2
=> none 0 4
=> rows 0 5 5

# a flush
$ stop --type i32le --chunk 2
append 1 2 3
flush
=> none 0 4
=> rows 0 5 10
=> rows 3 11 11

# a row past the budget: its pieces bring no row
$ stop --type i32le --chunk 512 --budget 1024
append 1
flush
=> none 0 4
=> rows 0 5 12
=> rows 1 13 13

# flushes one after another, one of them without rows
$ stop --type i32le --chunk 2
flush
append 1 2 3
flush
append 4
flush
flush
append 5
flush
=> none 0 4
=> rows 0 5 10
=> rows 3 11 12
=> rows 4 13 17
=> rows 5 18 18

# rows without a flush
$ stop --type i32le --chunk 2
append 1 2 3
flush
append 4 5
append 6
=> none 0 4
=> rows 0 5 10
=> rows 3 11 11

# rows without a flush, some of them written
$ stop --type i32le --chunk 512 --budget 1024
append 1
flush
append 2*300
=> none 0 4
=> rows 0 5 12
=> rows 1 13 16

# rows that go on in a chunk that was written before its flush, and in one that was flushed
$ stop --type i32le --chunk 512 --budget 1024
append 1
append 2 3
flush
append 4*300
flush
=> none 0 4
=> rows 0 5 13
=> rows 3 14 17
=> rows 303 18 18

# rows of columns, which a tree finds
$ stop --type i32le --chunk 128 --columns 2 --width 2 --budget 1024
append 1 2
flush
=> none 0 3
=> rows 0 4 12
=> rows 1 13 13

# another name
$ stop --type i8 --chunk 1 --name rows_of_it
append 7
flush
=> none 0 4
=> rows 0 5 9
=> rows 1 10 10

# lines that are none of a writer
$ stop --type i32le --chunk 2
append 1 2 3
flush
write 6
=> error line 3
= 8
$ stop --type i32le --chunk 2
stop
=> error line 1
= 8
$ stop --type i32le --chunk 2
open 1
=> error line 1
= 8
$ stop --type i32le --chunk 2
append 1
refresh 1
=> error line 2
= 8
$ stop --type i32le --chunk 2
read 1 0 1
=> error line 1
= 8
$ stop --type i32le --chunk 2
look 1 9
=> error line 1
= 8

# lines that are none of a script
$ stop --type i32le --chunk 2
append 1
-
=> error line 2
= 8
$ stop --type i32le --chunk 2
append
=> error line 1
= 8
$ stop --type i32le --chunk 2
flush 1
=> error line 1
= 8
$ stop --type i32le --chunk 2
1 2 3
=> error line 1
= 8
$ stop --type i32le --chunk 2 --columns 2 --width 2
append 1 2
append 3
=> error line 2
= 8

# a value outside the type
$ stop --type i32le --chunk 2
append 1
flush
append 1 2147483648
flush
=> error range 3 1 2147483648
= 8

# more rows than the file has chunks for
$ stop --type u8 --chunk 1 --columns 30000 --width 1 --fixed --budget 1073741824
append 7*30000
append 7*30000
append 7*30000
append 7*30000
append 7*30000
=> error full chunks 150000 131060
= 9

# a flush without a place, of rows that wait
$ stop --type i32le --chunk 512 --limit 1024
append 1
flush
=> error full space 560 2048 1024
= 9

# the same of rows past the budget
$ stop --type i32le --chunk 512 --limit 1024 --budget 1024
append 1
flush
=> error full space 560 2048 1024
= 9

# rows without a place that no flush takes
$ stop --type i32le --chunk 512 --limit 1024 --budget 1024
append 1
=> none 0 4
=> rows 0 5 5

# a source that fails at its first call
$ stop --type i32le --chunk 2
source 1
append 1
=> error source
= 11

# a source that fails behind lines
$ stop --type i32le --chunk 2
source 2
append 1
flush
=> error source
= 11

# a source that fails behind a line that is refused
$ stop --type i32le --chunk 2
source 2
x
=> error line 1
= 8

# a sink that fails
$ stop --type i32le --chunk 2
sink 1
append 1
= 12

# a sink that fails at the line of an error
$ stop --type i32le --chunk 2
sink 1
x
= 12

# a sink that would fail behind the report
$ stop --type i32le --chunk 2
sink 2
=> none 0 4
=> rows 0 5 5

# files stay beside it
+ data 00
$ stop --type i32le --chunk 2
=> none 0 4
=> rows 0 5 5
+ data 00

# words outside the command set
$ stop
=> error usage
= 2
$ stop --type i32le
=> error usage
= 2
$ stop --chunk 2
=> error usage
= 2
$ stop f --type i32le --chunk 2
=> error usage
= 2
$ stop --type i32le --chunk 2 --attempts 1
=> error usage
= 2
$ stop --type i32le --chunk 2 --budget 1023
=> error usage
= 2
$ stop --type i32le --chunk 2 --budget 1073741825
=> error usage
= 2
$ stop --type i32le --chunk 2 --readers 1
=> error usage
= 2
$ stop --type i32le --chunk 0
=> error usage
= 2
";
