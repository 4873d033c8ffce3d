/// What is wanted of an append that the disk stops at each of its pieces, once the file is cleared: it has no row before the piece of the
/// dataset's header, and all three behind it. A call of the disk is counted as in the table of appends.
pub const REOPENED_ROWS: &str = "
# an append that is stopped at its first piece, the superblock with the flags of a writer, is cleared and goes on
$ new f --type i32le --chunk 2
=> new end 558
$ append f
disk 15
1 2 3
=> error disk
= 10
$ clear f
=> clear 0 0
$ append f
8
=> rows 1
=> closed 1
$ poll f --values
=> rows 1
=> 8
$ clear f
=> clear 0 0

# an append that is stopped at the first chunk, is cleared and goes on
$ new f --type i32le --chunk 2
=> new end 558
$ append f
disk 16
1 2 3
=> error disk
= 10
$ clear f
=> clear 5 0
$ append f
8
=> rows 1
=> closed 1
$ poll f --values
=> rows 1
=> 8
$ clear f
=> clear 0 0

# an append that is stopped at the second chunk, is cleared and goes on
$ new f --type i32le --chunk 2
=> new end 558
$ append f
disk 17
1 2 3
=> error disk
= 10
$ clear f
=> clear 5 0
$ append f
8
=> rows 1
=> closed 1
$ poll f --values
=> rows 1
=> 8
$ clear f
=> clear 0 0

# an append that is stopped at the superblock with the new end, is cleared and goes on
$ new f --type i32le --chunk 2
=> new end 558
$ append f
disk 18
1 2 3
=> error disk
= 10
$ clear f
=> clear 5 0
$ append f
8
=> rows 1
=> closed 1
$ poll f --values
=> rows 1
=> 8
$ clear f
=> clear 0 0

# an append that is stopped at the index block, is cleared and goes on
$ new f --type i32le --chunk 2
=> new end 558
$ append f
disk 19
1 2 3
=> error disk
= 10
$ clear f
=> clear 5 0
$ append f
8
=> rows 1
=> closed 1
$ poll f --values
=> rows 1
=> 8
$ clear f
=> clear 0 0

# an append that is stopped at the array's header, is cleared and goes on
$ new f --type i32le --chunk 2
=> new end 558
$ append f
disk 20
1 2 3
=> error disk
= 10
$ clear f
=> clear 5 0
$ append f
8
=> rows 1
=> closed 1
$ poll f --values
=> rows 1
=> 8
$ clear f
=> clear 0 0

# an append that is stopped at the dataset's header, which shows the rows, is cleared and goes on
$ new f --type i32le --chunk 2
=> new end 558
$ append f
disk 21
1 2 3
=> error disk
= 10
$ clear f
=> clear 5 0
$ append f
8
=> rows 1
=> closed 1
$ poll f --values
=> rows 1
=> 8
$ clear f
=> clear 0 0

# an append that is stopped at the piece that closes it, is cleared and goes on
$ new f --type i32le --chunk 2
=> new end 558
$ append f
disk 22
1 2 3
=> rows 3
=> error disk
= 10
$ clear f
=> clear 5 0
$ append f
8
=> rows 4
=> closed 4
$ poll f --values
=> rows 4
=> 1
=> 2
=> 3
=> 8
$ clear f
=> clear 0 0
";
