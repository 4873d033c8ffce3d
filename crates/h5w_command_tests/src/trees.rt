/// Rows of columns: what is wanted of datasets of two dimensions, whose chunks a version 2 B-tree finds. The rows are told as in
/// `ROWS`.
///
/// The header of a dataset begins at 102 and the length of its name, and has 100 bytes where the sides of a chunk need one each; the
/// tree's header has 38; then chunks and nodes stand, of 2,048 bytes each. A flush has a piece for each 512 bytes of a new chunk, four
/// for each changed node, and one each for the superblock, where the file grows, the tree's header, where an address is new, and the
/// dataset's header. A leaf has at most 84 records and an inner node 61; a full one is divided in the middle.
pub const TREE_ROWS: &str = "
# two chunks side by side, the second of one column
$ play --type i16le --chunk 2 --columns 3 --width 2
append 1 2 3 4 5 6 => appended 2
flush => flushing 9
write 9 => written 9 pending 0
open 1 => reader 1 open
look 1 9 => reader 1 rows 2
read 1 1 1 => reader 1 read
look 1 9 => reader 1 values 4 5 6
append 1 2
=> error line 8
= 8

# a row that goes on in stored chunks, seen before its flush and behind it
$ play --type u8 --chunk 3 --columns 2 --width 1 --fill 9
append 1 2 3 4 => appended 2
flush => flushing 9
write 8 => written 8 pending 1
open 1 => reader 1 open
look 1 9 => reader 1 rows 0
write 1 => written 1 pending 0
append 5 6 => appended 3
flush => flushing 3
write 2 => written 2 pending 1
refresh 1 => reader 1 refresh
look 1 9 => reader 1 rows 2
write 1 => written 1 pending 0
refresh 1 => reader 1 refresh
look 1 9 => reader 1 rows 3
read 1 0 3 => reader 1 read
look 1 99 => reader 1 values 1 2 3 4 5 6

# one column in two dimensions, and a value outside its type
$ play --type i8 --chunk 1 --columns 1 --width 65536 --budget 1073741824
append 1 -129 => outofrange 1 -129
append 127 -128 => appended 2
flush => flushing 263
write 262 => written 262 pending 1
open 1 => reader 1 open
look 1 99 => reader 1 rows 0
write 1 => written 1 pending 0
refresh 1 => reader 1 refresh
look 1 99 => reader 1 rows 2
read 1 0 2 => reader 1 read
look 1 99 => reader 1 values 127 -128

# a full leaf, and the record that divides it, with a reader over it
$ play --type u8 --chunk 1 --columns 1 --width 1
append 7*84 => appended 84
flush => flushing 91
write 91 => written 91 pending 0
open 1 => reader 1 open
look 1 9999 => reader 1 rows 84
append 8 => appended 85
flush => flushing 16
read 1 83 1 => reader 1 read
write 15 => written 15 pending 1
look 1 9999 => reader 1 values 7
refresh 1 => reader 1 refresh
look 1 9999 => reader 1 rows 84
write 1 => written 1 pending 0
refresh 1 => reader 1 refresh
look 1 1 => reader 1 looking
look 1 9999 => reader 1 rows 85
read 1 83 2 => reader 1 read
look 1 9999 => reader 1 values 7 8

# a full tree of depth 1, and the record that makes another level, with a reader over it
$ play --type u8 --chunk 1 --columns 1 --width 1
append 7*2707 => appended 2707
flush => flushing 2962
write 2962 => written 2962 pending 0
open 1 => reader 1 open
look 1 99999 => reader 1 rows 2707
append 8 => appended 2708
flush => flushing 24
write 23 => written 23 pending 1
refresh 1 => reader 1 refresh
look 1 99999 => reader 1 rows 2707
write 1 => written 1 pending 0
refresh 1 => reader 1 refresh
look 1 1 => reader 1 looking
look 1 99999 => reader 1 rows 2708
read 1 2706 2 => reader 1 read
look 1 99999 => reader 1 values 7 8

# a file that has no place for the node
$ play --type u8 --chunk 1 --columns 1 --width 1 --limit 2000
append 1 => appended 1
flush => full space 245 2048 2000
append 2 => appended 2
flush => full space 246 2048 2000

# values that are no whole row
$ play --type u8 --chunk 1 --columns 30000 --width 1
append 1*29999
=> error line 1
= 8

# words outside the command set
$ play --type u8 --chunk 1 --columns 3
=> error usage
= 2
$ play --type u8 --chunk 1 --width 3
=> error usage
= 2
$ play --type u8 --chunk 1 --columns 0 --width 1
=> error usage
= 2
$ play --type u8 --chunk 1 --columns 1 --width 0
=> error usage
= 2
$ play --type u8 --chunk 1 --columns 65537 --width 1
=> error usage
= 2
$ play --type u8 --chunk 257 --columns 1 --width 65536
=> error usage
= 2
$ play --type u64be --chunk 65536 --columns 1 --width 33
=> error usage
= 2

# a file of two dimensions, its places, and another whose sides need two and three bytes
$ new f --type i16le --chunk 2 --columns 3 --width 2
=> new end 244
$ check f
=> valid rows 0 chunks 0 blocks 4 end 244 lost 0
$ poll f --values
=> rows 0
$ append f
1 2
=> error line 1
= 8
$ append f
1 2 3 4 5 6
-
7 8 9
10 11 12
-
13 14 15
=> rows 2
=> rows 4
=> rows 5
=> closed 5
$ check f
=> valid rows 5 chunks 6 blocks 5 end 4388 lost 2048
$ append f
16 17 18
-
x
=> rows 6
=> error line 3
= 8
$ poll f --values
=> rows 6
=> 1 2 3
=> 4 5 6
=> 7 8 9
=> 10 11 12
=> 13 14 15
=> 16 17 18
$ new g --type u8 --chunk 256 --columns 3 --width 65536
=> new end 250
$ check g
=> valid rows 0 chunks 0 blocks 4 end 250 lost 0

# a file whose leaf is full, and one more
$ new f --type u8 --chunk 1 --columns 1 --width 1
=> new end 244
$ append f
7*84
=> rows 84
=> closed 84
$ check f
=> valid rows 84 chunks 84 blocks 5 end 2376 lost 0
$ append f
8
=> rows 85
=> closed 85
$ check f
=> valid rows 85 chunks 85 blocks 7 end 8521 lost 2048
$ append f
9
-
1
=> rows 86
=> rows 87
=> closed 87
$ check f
=> valid rows 87 chunks 87 blocks 7 end 12619 lost 6144

# the largest chunk
$ play --type u8 --chunk 256 --columns 1 --width 65536
flush => flushing 0
";
