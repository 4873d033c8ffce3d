/// What is wanted of an append that takes a file over, in the form of the other rows. A call of the disk is counted as in the table of appends.
pub const TAKE_ROWS: &str = "
# both flags of a writer are asked for; a row more is put into a chunk that stands there
% f 894844460d0a1a0a030808 00*9 ff*8 3e02 00*6 30 00*7 52ca95854f48445202002f0212 00*4 ff*16 0a02 00*4 060f0000010004646174616a 00*7 e2c178944f484452020047011400000201010103 00*7 ff*8 030c00003008000004 00*5 200005020000030b081500000402000201020404200404100abc 00*7 d11def7b45414844000008200410040a 00*32 02 00*7 04 00*7 0401 00*6 a1700fb6454149420000bc 00*7 2e02 00*6 3602 00*6 ff*264 e119540c010000000200000003 00*7
& one f 11=01 44=73574672
& four f 11=04 44=5d09ff5a
& five f 11=05 44=579772e9
$ append f --takeover
4
=> error flags 0
= 6
$ append one --takeover
4
=> error flags 1
= 6
$ append four --takeover
4
=> error flags 4
= 6
& one f 11=01 44=73574672
& four f 11=04 44=5d09ff5a
$ append five --takeover
4
=> rows 4
=> closed 4
& five f 121=04 184=36088e9f 570=04000000
$ append five --takeover
5
=> error flags 0
= 6
$ append none --takeover
5
=> error missing
= 3
$ append five --takeover --name dat
5
=> error flags 0
= 6

# a name that no link has, and then a line outside the grammar, which closes the file
% f 894844460d0a1a0a030808 00*9 ff*8 3e02 00*6 30 00*7 52ca95854f48445202002f0212 00*4 ff*16 0a02 00*4 060f0000010004646174616a 00*7 e2c178944f484452020047011400000201010103 00*7 ff*8 030c00003008000004 00*5 200005020000030b081500000402000201020404200404100abc 00*7 d11def7b45414844000008200410040a 00*32 02 00*7 04 00*7 0401 00*6 a1700fb6454149420000bc 00*7 2e02 00*6 3602 00*6 ff*264 e119540c010000000200000003 00*7
& five f 11=05 44=579772e9
$ append five --takeover --name dat
4
=> error link none
= 4
& five f 11=05 44=579772e9
$ append five --takeover
4
x
=> error line 2
= 8
& five f 11=00 44=52ca9585

# no line
% f 894844460d0a1a0a030808 00*9 ff*8 3e02 00*6 30 00*7 52ca95854f48445202002f0212 00*4 ff*16 0a02 00*4 060f0000010004646174616a 00*7 e2c178944f484452020047011400000201010103 00*7 ff*8 030c00003008000004 00*5 200005020000030b081500000402000201020404200404100abc 00*7 d11def7b45414844000008200410040a 00*32 02 00*7 04 00*7 0401 00*6 a1700fb6454149420000bc 00*7 2e02 00*6 3602 00*6 ff*264 e119540c010000000200000003 00*7
& five f 11=05 44=579772e9
$ append five --takeover
=> closed 3
& five f 11=00 44=52ca9585

# a writer that was stopped at the index block: the chunks that it wrote are lost, and new places begin behind them
$ new f --type i32le --chunk 2
=> new end 558
$ append f
disk 19
1 2 3
=> error disk
= 10
$ append f
7
=> error flags 5
= 6
$ append f --takeover
7
=> rows 1
=> closed 1
$ check f
=> valid rows 1 chunks 1 blocks 5 end 582 lost 16
$ poll f --values
=> rows 1
=> 7
$ clear f
=> clear 0 0

# a writer that was stopped at the superblock of its second flush: the rows of the first are there, and no other
$ new f --type i32le --chunk 2
=> new end 558
$ append f
disk 24
1 2 3
-
4 5
=> rows 3
=> error disk
= 10
$ poll f --values
=> rows 3
=> 1
=> 2
=> 3
$ append f --takeover
9
-
8 7
=> rows 4
=> rows 6
=> closed 6
$ poll f --values
=> rows 6
=> 1
=> 2
=> 3
=> 9
=> 8
=> 7
$ check f
=> valid rows 6 chunks 3 blocks 5 end 582 lost 0

# a takeover that is stopped at the superblock that closes the file
% f 894844460d0a1a0a030808 00*9 ff*8 3e02 00*6 30 00*7 52ca95854f48445202002f0212 00*4 ff*16 0a02 00*4 060f0000010004646174616a 00*7 e2c178944f484452020047011400000201010103 00*7 ff*8 030c00003008000004 00*5 200005020000030b081500000402000201020404200404100abc 00*7 d11def7b45414844000008200410040a 00*32 02 00*7 04 00*7 0401 00*6 a1700fb6454149420000bc 00*7 2e02 00*6 3602 00*6 ff*264 e119540c010000000200000003 00*7
& five f 11=05 44=579772e9
$ append five --takeover
disk 10
4
=> rows 4
=> error disk
= 10
& five f 11=05 44=579772e9 121=04 184=36088e9f 570=04000000

# several datasets
% f 894844460d0a1a0a030808 00*9 ff*8 1808 00*6 30 00*7 09bc6cfd4f4844520220b2d80d6bb2d80d6bb2d80d6bb2d80d6b780212 00*4 ff*16 0a0200010000060c000001000161c3 00*7 060c000001000162cf01 00*7 38 00*58 1062b1604f48445202010001011400000201010103 00*7 ff*8 030c00011008000004 00*5 2000050200010303081500000402000201020404200404100adb02 00*7 b5 00*183 d7da71014f48445202010001012400000202010101 00*7 02 00*7 ff*8 02 00*7 030c00011009000002 00*5 100005020001030308160000040200030102020204200404100a2303 00*7 a4 00*166 a026cdac45414844000008200410040a 00*32 02 00*7 04 00*7 6b03 00*6 032fc77a45414844000008200410040a 00*32 01 00*7 04 00*7 9504 00*6 c412c393454149420000db02 00*7 08 00*6 0808 00*6 ff*264 144d42024541494200002303 00*6 1008 00*6 ff*272 22c12d51 00*577 0100000002000000fdffffff 00*5 04fffb 00*4
& left f 11=05 44=5fa62cfa
$ append f --name a,b --takeover
4
=> error flags 0
= 6
$ append left --name a,b
4
=> error flags 5
= 6
$ append left --name a,b --takeover
4 5
use 2
7 8 -9 10
-
-
use 1
6
=> rows 5 3
=> rows 6 3
=> closed 6 3
$ check left --name a,b
=> valid rows 6 3 chunks 5 blocks 8 end 2088 lost 577
$ poll left --name a --values
=> rows 6
=> 1
=> 2
=> -3
=> 4
=> 5
=> 6
$ poll left --name b --values
=> rows 3
=> 4 -5
=> 7 8
=> -9 10
$ clear left
=> clear 0 0

# a batch of one of several datasets may be as long as memory allows, unless its bytes are bounded
$ new f --type i64le --chunk 4096 --name a,b
=> new end 1027
$ append f --name a,b --budget 65536
1*10000
=> error memory
= 13
$ append f --name a,b
1*10000
=> rows 10000 0
=> closed 10000 0
$ clear f
=> clear 0 0
";
