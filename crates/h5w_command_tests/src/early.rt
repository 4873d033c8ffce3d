/// Rows of values that are written before their flush, told as the others are, with files as in the table of files.
///
/// By hand, from the writer's rules. What waits is counted in bytes: a band of rows that has none yet as its chunks are long, one that
/// has as the cells of its other rows are, and the dataset's header, of 82 or 84 bytes, or of 99 or 100 with columns. Where that is more
/// than the budget, so many bands are written, from the first on, that the rest is not, as far as there are places for their chunks. A
/// chunk is written whole where it is new, else its new cells, a piece for each 512 bytes of what stands side by side. The flush behind
/// them has the pieces of the other rows, and then the same as any: four where an array gets new chunks, one where it gets none, and
/// seven where a tree gets its first node.
pub const EARLY_ROWS: &str = "
# a row past the budget: its pieces are pending, and no reader finds it before its flush
$ play --type i32le --chunk 512 --budget 1024
append 1 => appended 1 pending 4
flush => busy 4
write 4 => written 4 pending 0
open 1 => reader 1 open
look 1 9 => reader 1 rows 0
flush => flushing 4
write 4 => written 4 pending 0
refresh 1 => reader 1 refresh
look 1 9 => reader 1 rows 1
read 1 0 1 => reader 1 read
look 1 9 => reader 1 values 1

# a row past the budget without a place
$ play --type i32le --chunk 512 --limit 1024 --budget 1024
append 1 => appended 1
flush => full space 560 2048 1024

# as many bytes as the budget, and one more
$ play --type i8 --chunk 1 --budget 1024
append 0*942 => appended 942
append 0 => appended 943 pending 1
write 1 => written 1 pending 0
append 0 0 => appended 945 pending 2

# a budget of a byte more
$ play --type i8 --chunk 1 --budget 1025
append 0*943 => appended 943
append 0 => appended 944 pending 1

# the budget where none is given, and one more byte
$ play --type i8 --chunk 1
append 0*30000 => appended 30000
append 0*30000 => appended 60000
append 0*5454 => appended 65454
append 0 => appended 65455 pending 1

# the greatest budget
$ play --type i32le --chunk 512 --budget 1073741824
append 1 => appended 1
flush => flushing 8

# rows that go on in a chunk that was written before its flush, and in one that was flushed
$ play --type i32le --chunk 512 --budget 1024
append 1 => appended 1 pending 4
write 9 => written 4 pending 0
append 2 3 => appended 3
flush => flushing 5
write 9 => written 5 pending 0
open 1 => reader 1 open
look 1 9 => reader 1 rows 3
append 4*300 => appended 303 pending 3
write 2 => written 2 pending 1
refresh 1 => reader 1 refresh
look 1 9 => reader 1 rows 3
write 1 => written 1 pending 0
flush => flushing 1
write 9 => written 1 pending 0
refresh 1 => reader 1 refresh
look 1 9 => reader 1 rows 303
read 1 0 5 => reader 1 read
look 1 9 => reader 1 values 1 2 3 4 4

# two bands of rows, of which the first is written
$ play --type i32le --chunk 128 --budget 1024
append 7*129 => appended 129 pending 1
write 1 => written 1 pending 0
flush => flushing 5
write 9 => written 5 pending 0
open 1 => reader 1 open
look 1 9 => reader 1 rows 129
read 1 127 2 => reader 1 read
look 1 9 => reader 1 values 7 7

# three bands of rows, and a place for the first alone
$ play --type i32le --chunk 128 --limit 1070 --budget 1024
append 7*257 => appended 257 pending 1
write 1 => written 1 pending 0
append 7 => appended 258
flush => full space 1070 512 1070
open 1 => reader 1 open
look 1 9 => reader 1 rows 0

# rows that are refused, and rows while pieces are pending; a stop among these
$ play --type i32le --chunk 512 --budget 1024
append 1 2147483648 => outofrange 1 2147483648
append 1 => appended 1 pending 4
append 2 => busy 4
write 3 => written 3 pending 1
stop => stopped
write 1 => written 0 pending 0
append 2 => stopped
flush => stopped
open 1 => reader 1 open
look 1 9 => reader 1 rows 0

# a stop behind rows that were written before their flush
$ play --type i32le --chunk 512 --budget 1024
append 1 => appended 1 pending 4
write 4 => written 4 pending 0
stop => stopped
open 1 => reader 1 open
look 1 9 => reader 1 rows 0

# pieces of no flush between the two looks at the header of the one attempt
$ play --type i32le --chunk 512 --budget 1024 --attempts 1
append 1 => appended 1 pending 4
write 4 => written 4 pending 0
flush => flushing 4
write 4 => written 4 pending 0
open 1 => reader 1 open
look 1 3 => reader 1 looking
append 2*300 => appended 301 pending 3
write 3 => written 3 pending 0
look 1 9 => reader 1 rows 1

# rows of columns, whose first chunk is written before the tree names it
$ play --type i32le --chunk 128 --columns 2 --width 2 --budget 1024
append 1 2 => appended 1 pending 2
write 2 => written 2 pending 0
open 1 => reader 1 open
look 1 9 => reader 1 rows 0
flush => flushing 7
write 7 => written 7 pending 0
refresh 1 => reader 1 refresh
look 1 9 => reader 1 rows 1
read 1 0 1 => reader 1 read
look 1 9 => reader 1 values 1 2

# rows that go on in two chunks side by side, of which the second has one column
$ play --type i16le --chunk 200 --columns 3 --width 2 --budget 1024
append 1 2 3 => appended 1 pending 4
write 9 => written 4 pending 0
append 4 5 6 7 8 9 => appended 3
flush => flushing 10
write 99 => written 10 pending 0
open 1 => reader 1 open
look 1 99 => reader 1 rows 3
read 1 0 3 => reader 1 read
look 1 99 => reader 1 values 1 2 3 4 5 6 7 8 9

# fixed columns, whose chunks an array finds
$ play --type i16le --chunk 200 --columns 3 --width 2 --fixed --budget 1024
append 1 2 3 => appended 1 pending 4
write 9 => written 4 pending 0
append 4 5 6 7 8 9 => appended 3
flush => flushing 7
write 99 => written 7 pending 0
open 1 => reader 1 open
look 1 99 => reader 1 rows 3
read 1 0 3 => reader 1 read
look 1 99 => reader 1 values 1 2 3 4 5 6 7 8 9

# a file whose rows are written before their batch ends: their chunks stand where they do without a budget
$ new f --type i32le --chunk 255
=> new end 558
$ append f --budget 1024
1 2 3
-
4*255
=> rows 3
=> rows 258
=> closed 258
$ check f
=> valid rows 258 chunks 2 blocks 5 end 2598 lost 0
$ poll f
=> rows 258

# a line outside the grammar behind rows that were written: they stand behind the file's end
$ new f --type i32le --chunk 255
=> new end 558
$ append f --budget 1024
1 2 3
x
=> error line 2
= 8
% f 894844460d0a1a0a030808 00*9 ff*8 2e02 00*6 30 00*7 989351ec4f48445202002f0212 00*4 ff*16 0a02 00*4 060f0000010004646174616a 00*7 e2c178944f4844520200470114000002010101 00*8 ff*8 030c00003008000004 00*5 200005020000030b081500000402000201ff0404200404100abc 00*7 74385c8d45414844000008200410040a 00*40 04 00*7 0401 00*6 5b7e40bd454149420000bc 00*7 ff*280 4bf61704 01 00*3 02 00*3 03 00*1011
$ check f
=> valid rows 0 chunks 0 blocks 5 end 558 lost 0
$ clear f
=> clear 0 0
$ append f
4
=> rows 1
=> closed 1
$ check f
=> valid rows 1 chunks 1 blocks 5 end 1578 lost 0
$ poll f --values
=> rows 1
=> 4

# the same where places are not used again
$ new f --type i32le --chunk 255
=> new end 558
$ append f --budget 1024 --no-reuse
1 2 3
x
=> error line 2
= 8
% f 894844460d0a1a0a030808 00*9 ff*8 2e02 00*6 30 00*7 989351ec4f48445202002f0212 00*4 ff*16 0a02 00*4 060f0000010004646174616a 00*7 e2c178944f4844520200470114000002010101 00*8 ff*8 030c00003008000004 00*5 200005020000030b081500000402000201ff0404200404100abc 00*7 74385c8d45414844000008200410040a 00*40 04 00*7 0401 00*6 5b7e40bd454149420000bc 00*7 ff*280 4bf61704 01 00*3 02 00*3 03 00*1011
$ check f
=> valid rows 0 chunks 0 blocks 5 end 558 lost 0
$ clear f
=> clear 0 0

# a file without a place for its rows
$ new f --type i32le --chunk 255
=> new end 558
$ append f --limit 1024 --budget 1024
1
=> error full space 558 1020 1024
= 9
$ check f
=> valid rows 0 chunks 0 blocks 5 end 558 lost 0
$ clear f
=> clear 0 0

# a disk that fails at the first piece of rows that are written before their batch ends
$ new f --type i32le --chunk 255
=> new end 558
$ append f --budget 1024
disk 16
1 2 3
=> error disk
= 10
$ check f
=> valid rows 0 chunks 0 blocks 5 end 558 lost 0
$ clear f
=> clear 5 0

# a disk that fails at a later one: the first batch has 7 puts, the line behind it two for cells of the first chunk and two for the second
$ new f --type i32le --chunk 255
=> new end 558
$ append f --budget 1024
disk 24
1 2 3
-
4*255
=> rows 3
=> error disk
= 10
$ check f
=> valid rows 3 chunks 1 blocks 5 end 1578 lost 0
$ poll f --values
=> rows 3
=> 1
=> 2
=> 3
$ clear f
=> clear 5 0

# the same where places are not used again
$ new f --type i32le --chunk 255
=> new end 558
$ append f --budget 1024 --no-reuse
disk 24
1 2 3
-
4*255
=> rows 3
=> error disk
= 10
$ check f
=> valid rows 3 chunks 1 blocks 5 end 1578 lost 0
$ poll f --values
=> rows 3
=> 1
=> 2
=> 3
$ clear f
=> clear 5 0

# a source that fails behind rows that were written
$ new f --type i32le --chunk 255
=> new end 558
$ append f --budget 1024
source 2
1 2 3
=> error source
= 11
$ check f
=> valid rows 0 chunks 0 blocks 5 end 558 lost 0
$ clear f
=> clear 0 0

# budgets outside their limits
$ play --type i32le --chunk 2 --budget 1023
=> error usage
= 2
$ play --type i32le --chunk 2 --budget 1073741825
=> error usage
= 2
$ play --type i32le --chunk 2 --budget 01024
=> error usage
= 2
$ new f --type i32le --chunk 2 --budget 1023
=> error usage
= 2
$ append f --budget 1023
1
=> error usage
= 2
$ append f --budget 1073741825
1
=> error usage
= 2
$ append f --budget 1024 --budget 1024
1
=> error usage
= 2
$ live --type i32le --chunk 2 --readers 1 --polls 1 --budget 1023
=> error usage
= 2

# commands without a budget
$ poll f --budget 1024
=> error usage
= 2
$ check f --budget 1024
=> error usage
= 2
$ clear f --budget 1024
=> error usage
= 2
";
