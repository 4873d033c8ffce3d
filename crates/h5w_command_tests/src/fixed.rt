/// What is wanted of datasets of two dimensions whose columns are fixed, in the form of the other rows. An extensible array finds their chunks:
/// they are numbered along the bands of rows, and in each over the chunks side by side.
///
/// The header of a dataset begins at 102 and the length of its name, and has 99 bytes where the sides of a chunk need one each; the array's two
/// blocks have 72 and 298; then chunks stand, and behind the fourth of them data blocks, the first of 150 bytes. A flush has the pieces that it
/// has in one dimension.
pub const FIXED_ROWS: &str = "
# two chunks side by side, the second of one column
$ play --type i16le --chunk 2 --columns 3 --width 2 --fixed
append 1 2 3 4 5 6 => appended 2
flush => flushing 6
write 6 => written 6 pending 0
open 1 => reader 1 open
look 1 6 => reader 1 rows 2
append 7 8 9 10 11 12 13 14 15 => appended 5
flush => flushing 9
write 9 => written 9 pending 0
refresh 1 => reader 1 refresh
look 1 9 => reader 1 rows 5
read 1 4 1 => reader 1 read
look 1 9 => reader 1 values 13 14 15

# a row that goes on in stored chunks, seen before its flush and behind it
$ play --type u8 --fixed --chunk 3 --columns 2 --width 1 --fill 9
append 1 2 3 4 => appended 2
flush => flushing 6
write 5 => written 5 pending 1
open 1 => reader 1 open
look 1 9 => reader 1 rows 0
write 1 => written 1 pending 0
append 5 6 => appended 3
flush => flushing 3
write 2 => written 2 pending 1
refresh 1 => reader 1 refresh
look 1 9 => reader 1 rows 2
write 1 => written 1 pending 0
refresh 1 => reader 1 refresh
look 1 9 => reader 1 rows 3
read 1 0 3 => reader 1 read
look 1 99 => reader 1 values 1 2 3 4 5 6
append 7 8 9
=> error line 17
= 8

# one column, as wide as its chunks
$ play --type i8 --chunk 1 --columns 1 --width 1 --fixed
append 127 -128 => appended 2
flush => flushing 6
write 9 => written 6 pending 0
open 1 => reader 1 open
look 1 9 => reader 1 rows 2

# more rows than the array has chunks for
$ play --type u8 --chunk 1 --columns 30000 --width 1 --fixed --budget 1073741824
append 7*30000 => appended 1
append 7*30000 => appended 2
append 7*30000 => appended 3
append 7*30000 => appended 4
append 7*30000 => full chunks 150000 131060

# a file that has no place for the second chunk of a row
$ play --type u8 --chunk 200 --columns 4 --width 2 --fixed --limit 1024
append 1 2 3 4 => appended 1
flush => full space 975 400 1024

# a file, its places, and rows that are appended to it
$ new f --type i16le --chunk 2 --columns 3 --width 2 --fixed
=> new end 575
% f 894844460d0a1a0a030808 00*9 ff*8 3f02 00*6 30 00*7 b539bf244f48445202002f021200000000 ff*16 0a0200000000060f0000010004646174616a 00*7 e2c178944f4844520200580124000002020101 00*8 03 00*7 ff*8 03 00*7 030c000030080000020000000000100005020000030b08160000040200030102020204200404100acd 00*7 f1178c1445414844000008200410040a 00*40 04 00*7 1501 00*6 8d84047f454149420000cd 00*7 ff*280 009f0563
$ check f
=> valid rows 0 chunks 0 blocks 5 end 575 lost 0
$ append f
1 2 3 4 5 6
-
7 8 9
10 11 12
13 14 15
=> rows 2
=> rows 5
=> closed 5
$ check f
=> valid rows 5 chunks 6 blocks 6 end 773 lost 0
$ append f
16 17 18
-
1 2
=> rows 6
=> error line 3
= 8
$ poll f --times 2 --values
=> rows 6
=> 1 2 3
=> 4 5 6
=> 7 8 9
=> 10 11 12
=> 13 14 15
=> 16 17 18
=> rows 6
$ check f
=> valid rows 6 chunks 6 blocks 6 end 773 lost 0
$ clear f --upgrade
=> clear 0 0

# readers beside a writer without rows
$ live --type i16le --chunk 2 --columns 3 --width 2 --fixed --readers 1 --polls 2
=> poll 1 1 5 5 rows 0 sum 0
=> poll 1 2 5 5 rows 0 sum 0
=> done 0

# words outside the command set
$ play --type u8 --chunk 1 --fixed
=> error usage
= 2
$ play --type u8 --chunk 1 --columns 3 --width 4 --fixed
=> error usage
= 2
$ play --type u8 --chunk 1 --columns 3 --fixed
=> error usage
= 2
$ play --type u8 --chunk 1 --width 3 --fixed
=> error usage
= 2
$ play --type u8 --chunk 1 --columns 3 --width 2 --fixed --fixed
=> error usage
= 2
$ new f --type u8 --chunk 1 --fixed
=> error usage
= 2
$ new f --type u8 --chunk 1 --columns 3 --width 4 --fixed
=> error usage
= 2
$ live --type u8 --chunk 1 --columns 3 --width 4 --fixed --readers 1 --polls 1
=> error usage
= 2
$ append f --fixed
=> error usage
= 2
$ play --type u8 --chunk 1 --columns 3 --width 3 --fixed
flush => flushing 0
$ play --type u8 --chunk 256 --columns 65536 --width 65536 --fixed
flush => flushing 0
";
