/// Rows of all types of integers, fills and arrays of more chunks than the index block names, told as the others are.
///
/// A chunk of one value is a piece; a data block of 16, 32, 64 or 128 slots has 150, 278, 534 or 1,046 bytes, a secondary block that
/// names 4 data blocks 54.
pub const TYPE_ROWS: &str = "
# the least and the greatest value of i8
$ play --type i8 --chunk 2
append 128 => outofrange 0 128
append -128 -129 => outofrange 1 -129
append -128 127 => appended 2
flush => flushing 5
write 9 => written 5 pending 0
open 1 => reader 1 open
look 1 9 => reader 1 rows 2
read 1 0 2 => reader 1 read
look 1 9 => reader 1 values -128 127

# the least and the greatest value of u8
$ play --type u8 --chunk 2
append 256 => outofrange 0 256
append 0 -1 => outofrange 1 -1
append 0 255 => appended 2
flush => flushing 5
write 9 => written 5 pending 0
open 1 => reader 1 open
look 1 9 => reader 1 rows 2
read 1 0 2 => reader 1 read
look 1 9 => reader 1 values 0 255

# the least and the greatest value of i16le
$ play --type i16le --chunk 2
append 32768 => outofrange 0 32768
append -32768 -32769 => outofrange 1 -32769
append -32768 32767 => appended 2
flush => flushing 5
write 9 => written 5 pending 0
open 1 => reader 1 open
look 1 9 => reader 1 rows 2
read 1 0 2 => reader 1 read
look 1 9 => reader 1 values -32768 32767

# the least and the greatest value of i16be
$ play --type i16be --chunk 2
append 32768 => outofrange 0 32768
append -32768 -32769 => outofrange 1 -32769
append -32768 32767 => appended 2
flush => flushing 5
write 9 => written 5 pending 0
open 1 => reader 1 open
look 1 9 => reader 1 rows 2
read 1 0 2 => reader 1 read
look 1 9 => reader 1 values -32768 32767

# the least and the greatest value of u16le
$ play --type u16le --chunk 2
append 65536 => outofrange 0 65536
append 0 -1 => outofrange 1 -1
append 0 65535 => appended 2
flush => flushing 5
write 9 => written 5 pending 0
open 1 => reader 1 open
look 1 9 => reader 1 rows 2
read 1 0 2 => reader 1 read
look 1 9 => reader 1 values 0 65535

# the least and the greatest value of u16be
$ play --type u16be --chunk 2
append 65536 => outofrange 0 65536
append 0 -1 => outofrange 1 -1
append 0 65535 => appended 2
flush => flushing 5
write 9 => written 5 pending 0
open 1 => reader 1 open
look 1 9 => reader 1 rows 2
read 1 0 2 => reader 1 read
look 1 9 => reader 1 values 0 65535

# the least and the greatest value of i32le
$ play --type i32le --chunk 2
append 2147483648 => outofrange 0 2147483648
append -2147483648 -2147483649 => outofrange 1 -2147483649
append -2147483648 2147483647 => appended 2
flush => flushing 5
write 9 => written 5 pending 0
open 1 => reader 1 open
look 1 9 => reader 1 rows 2
read 1 0 2 => reader 1 read
look 1 9 => reader 1 values -2147483648 2147483647

# the least and the greatest value of i32be
$ play --type i32be --chunk 2
append 2147483648 => outofrange 0 2147483648
append -2147483648 -2147483649 => outofrange 1 -2147483649
append -2147483648 2147483647 => appended 2
flush => flushing 5
write 9 => written 5 pending 0
open 1 => reader 1 open
look 1 9 => reader 1 rows 2
read 1 0 2 => reader 1 read
look 1 9 => reader 1 values -2147483648 2147483647

# the least and the greatest value of u32le
$ play --type u32le --chunk 2
append 4294967296 => outofrange 0 4294967296
append 0 -1 => outofrange 1 -1
append 0 4294967295 => appended 2
flush => flushing 5
write 9 => written 5 pending 0
open 1 => reader 1 open
look 1 9 => reader 1 rows 2
read 1 0 2 => reader 1 read
look 1 9 => reader 1 values 0 4294967295

# the least and the greatest value of u32be
$ play --type u32be --chunk 2
append 4294967296 => outofrange 0 4294967296
append 0 -1 => outofrange 1 -1
append 0 4294967295 => appended 2
flush => flushing 5
write 9 => written 5 pending 0
open 1 => reader 1 open
look 1 9 => reader 1 rows 2
read 1 0 2 => reader 1 read
look 1 9 => reader 1 values 0 4294967295

# the least and the greatest value of i64le
$ play --type i64le --chunk 2
append 9223372036854775808 => outofrange 0 9223372036854775808
append -9223372036854775808 -9223372036854775809 => outofrange 1 -9223372036854775809
append -9223372036854775808 9223372036854775807 => appended 2
flush => flushing 5
write 9 => written 5 pending 0
open 1 => reader 1 open
look 1 9 => reader 1 rows 2
read 1 0 2 => reader 1 read
look 1 9 => reader 1 values -9223372036854775808 9223372036854775807

# the least and the greatest value of i64be
$ play --type i64be --chunk 2
append 9223372036854775808 => outofrange 0 9223372036854775808
append -9223372036854775808 -9223372036854775809 => outofrange 1 -9223372036854775809
append -9223372036854775808 9223372036854775807 => appended 2
flush => flushing 5
write 9 => written 5 pending 0
open 1 => reader 1 open
look 1 9 => reader 1 rows 2
read 1 0 2 => reader 1 read
look 1 9 => reader 1 values -9223372036854775808 9223372036854775807

# the least and the greatest value of u64le
$ play --type u64le --chunk 2
append 18446744073709551616 => outofrange 0 18446744073709551616
append 0 -1 => outofrange 1 -1
append 0 18446744073709551615 => appended 2
flush => flushing 5
write 9 => written 5 pending 0
open 1 => reader 1 open
look 1 9 => reader 1 rows 2
read 1 0 2 => reader 1 read
look 1 9 => reader 1 values 0 18446744073709551615

# the least and the greatest value of u64be
$ play --type u64be --chunk 2
append 18446744073709551616 => outofrange 0 18446744073709551616
append 0 -1 => outofrange 1 -1
append 0 18446744073709551615 => appended 2
flush => flushing 5
write 9 => written 5 pending 0
open 1 => reader 1 open
look 1 9 => reader 1 rows 2
read 1 0 2 => reader 1 read
look 1 9 => reader 1 values 0 18446744073709551615

# chunk 4, the first of a super block, while a reader is held
$ play --type u16be --chunk 1 --attempts 2
append 0 1 2 3 => appended 4
flush => flushing 8
write 999 => written 8 pending 0
open 1 => reader 1 open
look 1 5 => reader 1 looking
append 4 => appended 5
flush => flushing 6
write 9 => written 6 pending 0
look 1 9999 => reader 1 rows 5
read 1 3 2 => reader 1 read
look 1 9 => reader 1 values 3 4

# chunk 20, the first of a super block, while a reader is held
$ play --type u16be --chunk 1 --attempts 2
append 0 1 2 3 4 5 6 7 8 9 10 11 12 13 14 15 16 17 18 19 => appended 20
flush => flushing 25
write 999 => written 25 pending 0
open 1 => reader 1 open
look 1 5 => reader 1 looking
append 20 => appended 21
flush => flushing 6
write 9 => written 6 pending 0
look 1 9999 => reader 1 rows 21
read 1 19 2 => reader 1 read
look 1 9 => reader 1 values 19 20

# chunk 52, the first of a super block, while a reader is held
$ play --type u16be --chunk 1 --attempts 2
append 0 1 2 3 4 5 6 7 8 9 10 11 12 13 14 15 16 17 18 19 20 21 22 23 24 25 26 27 28 29 30 31 32 33 34 35 36 37 38 39 40 41 42 43 44 45 46 47 48 49 50 51 => appended 52
flush => flushing 58
write 999 => written 58 pending 0
open 1 => reader 1 open
look 1 5 => reader 1 looking
append 52 => appended 53
flush => flushing 6
write 9 => written 6 pending 0
look 1 9999 => reader 1 rows 53
read 1 51 2 => reader 1 read
look 1 9 => reader 1 values 51 52

# chunk 84, the first of a second data block of a super block, while a reader is held
$ play --type u16be --chunk 1 --attempts 2
append 0 1 2 3 4 5 6 7 8 9 10 11 12 13 14 15 16 17 18 19 20 21 22 23 24 25 26 27 28 29 30 31 32 33 34 35 36 37 38 39 40 41 42 43 44 45 46 47 48 49 50 51 52 53 54 55 56 57 58 59 60 61 62 63 64 65 66 67 68 69 70 71 72 73 74 75 76 77 78 79 80 81 82 83 => appended 84
flush => flushing 91
write 999 => written 91 pending 0
open 1 => reader 1 open
look 1 5 => reader 1 looking
append 84 => appended 85
flush => flushing 6
write 9 => written 6 pending 0
look 1 9999 => reader 1 rows 85
read 1 83 2 => reader 1 read
look 1 9 => reader 1 values 83 84

# chunk 116, the first of a super block, while a reader is held
$ play --type u16be --chunk 1 --attempts 2
append 0 1 2 3 4 5 6 7 8 9 10 11 12 13 14 15 16 17 18 19 20 21 22 23 24 25 26 27 28 29 30 31 32 33 34 35 36 37 38 39 40 41 42 43 44 45 46 47 48 49 50 51 52 53 54 55 56 57 58 59 60 61 62 63 64 65 66 67 68 69 70 71 72 73 74 75 76 77 78 79 80 81 82 83 84 85 86 87 88 89 90 91 92 93 94 95 96 97 98 99 100 101 102 103 104 105 106 107 108 109 110 111 112 113 114 115 => appended 116
flush => flushing 124
write 999 => written 124 pending 0
open 1 => reader 1 open
look 1 5 => reader 1 looking
append 116 => appended 117
flush => flushing 7
write 9 => written 7 pending 0
look 1 9999 => reader 1 rows 117
read 1 115 2 => reader 1 read
look 1 9 => reader 1 values 115 116

# chunk 180, the first of a second data block of a super block, while a reader is held
$ play --type u16be --chunk 1 --attempts 2
append 0 1 2 3 4 5 6 7 8 9 10 11 12 13 14 15 16 17 18 19 20 21 22 23 24 25 26 27 28 29 30 31 32 33 34 35 36 37 38 39 40 41 42 43 44 45 46 47 48 49 50 51 52 53 54 55 56 57 58 59 60 61 62 63 64 65 66 67 68 69 70 71 72 73 74 75 76 77 78 79 80 81 82 83 84 85 86 87 88 89 90 91 92 93 94 95 96 97 98 99 100 101 102 103 104 105 106 107 108 109 110 111 112 113 114 115 116 117 118 119 120 121 122 123 124 125 126 127 128 129 130 131 132 133 134 135 136 137 138 139 140 141 142 143 144 145 146 147 148 149 150 151 152 153 154 155 156 157 158 159 160 161 162 163 164 165 166 167 168 169 170 171 172 173 174 175 176 177 178 179 => appended 180
flush => flushing 190
write 999 => written 190 pending 0
open 1 => reader 1 open
look 1 5 => reader 1 looking
append 180 => appended 181
flush => flushing 7
write 9 => written 7 pending 0
look 1 9999 => reader 1 rows 181
read 1 179 2 => reader 1 read
look 1 9 => reader 1 values 179 180

# chunk 244, the first of a super block, while a reader is held
$ play --type u16be --chunk 1 --attempts 2
append 0 1 2 3 4 5 6 7 8 9 10 11 12 13 14 15 16 17 18 19 20 21 22 23 24 25 26 27 28 29 30 31 32 33 34 35 36 37 38 39 40 41 42 43 44 45 46 47 48 49 50 51 52 53 54 55 56 57 58 59 60 61 62 63 64 65 66 67 68 69 70 71 72 73 74 75 76 77 78 79 80 81 82 83 84 85 86 87 88 89 90 91 92 93 94 95 96 97 98 99 100 101 102 103 104 105 106 107 108 109 110 111 112 113 114 115 116 117 118 119 120 121 122 123 124 125 126 127 128 129 130 131 132 133 134 135 136 137 138 139 140 141 142 143 144 145 146 147 148 149 150 151 152 153 154 155 156 157 158 159 160 161 162 163 164 165 166 167 168 169 170 171 172 173 174 175 176 177 178 179 180 181 182 183 184 185 186 187 188 189 190 191 192 193 194 195 196 197 198 199 200 201 202 203 204 205 206 207 208 209 210 211 212 213 214 215 216 217 218 219 220 221 222 223 224 225 226 227 228 229 230 231 232 233 234 235 236 237 238 239 240 241 242 243 => appended 244
flush => flushing 256
write 999 => written 256 pending 0
open 1 => reader 1 open
look 1 5 => reader 1 looking
append 244 => appended 245
flush => flushing 8
write 9 => written 8 pending 0
look 1 9999 => reader 1 rows 245
read 1 243 2 => reader 1 read
look 1 9 => reader 1 values 243 244

# chunk 500, the first of a super block, while a reader is held
$ play --type u16be --chunk 1 --attempts 2
append 0 1 2 3 4 5 6 7 8 9 10 11 12 13 14 15 16 17 18 19 20 21 22 23 24 25 26 27 28 29 30 31 32 33 34 35 36 37 38 39 40 41 42 43 44 45 46 47 48 49 50 51 52 53 54 55 56 57 58 59 60 61 62 63 64 65 66 67 68 69 70 71 72 73 74 75 76 77 78 79 80 81 82 83 84 85 86 87 88 89 90 91 92 93 94 95 96 97 98 99 100 101 102 103 104 105 106 107 108 109 110 111 112 113 114 115 116 117 118 119 120 121 122 123 124 125 126 127 128 129 130 131 132 133 134 135 136 137 138 139 140 141 142 143 144 145 146 147 148 149 150 151 152 153 154 155 156 157 158 159 160 161 162 163 164 165 166 167 168 169 170 171 172 173 174 175 176 177 178 179 180 181 182 183 184 185 186 187 188 189 190 191 192 193 194 195 196 197 198 199 200 201 202 203 204 205 206 207 208 209 210 211 212 213 214 215 216 217 218 219 220 221 222 223 224 225 226 227 228 229 230 231 232 233 234 235 236 237 238 239 240 241 242 243 244 245 246 247 248 249 250 251 252 253 254 255 256 257 258 259 260 261 262 263 264 265 266 267 268 269 270 271 272 273 274 275 276 277 278 279 280 281 282 283 284 285 286 287 288 289 290 291 292 293 294 295 296 297 298 299 300 301 302 303 304 305 306 307 308 309 310 311 312 313 314 315 316 317 318 319 320 321 322 323 324 325 326 327 328 329 330 331 332 333 334 335 336 337 338 339 340 341 342 343 344 345 346 347 348 349 350 351 352 353 354 355 356 357 358 359 360 361 362 363 364 365 366 367 368 369 370 371 372 373 374 375 376 377 378 379 380 381 382 383 384 385 386 387 388 389 390 391 392 393 394 395 396 397 398 399 400 401 402 403 404 405 406 407 408 409 410 411 412 413 414 415 416 417 418 419 420 421 422 423 424 425 426 427 428 429 430 431 432 433 434 435 436 437 438 439 440 441 442 443 444 445 446 447 448 449 450 451 452 453 454 455 456 457 458 459 460 461 462 463 464 465 466 467 468 469 470 471 472 473 474 475 476 477 478 479 480 481 482 483 484 485 486 487 488 489 490 491 492 493 494 495 496 497 498 499 => appended 500
flush => flushing 521
write 999 => written 521 pending 0
open 1 => reader 1 open
look 1 5 => reader 1 looking
append 500 => appended 501
flush => flushing 9
write 9 => written 9 pending 0
look 1 9999 => reader 1 rows 501
read 1 499 2 => reader 1 read
look 1 9 => reader 1 values 499 500

# no place for the first data block
$ play --type i32le --chunk 1 --limit 1024
append 0 0 0 0 0 0 0 0 0 0 0 0 0 0 0 0 0 0 0 0 0 0 0 0 0 0 0 0 0 0 0 0 0 0 0 0 0 0 0 0 0 0 0 0 0 0 0 0 0 0 0 0 0 0 0 0 0 0 0 0 0 0 0 0 0 0 0 0 0 0 0 0 0 0 0 0 0 0 0 0 => appended 80
flush => full space 878 150 1024
flush => full space 878 150 1024
append 0 => appended 81
flush => full space 882 150 1024

# five chunks and then one more, three times, while a reader is held in the first of two attempts
$ play --type i32le --chunk 1 --attempts 2
append 1 2 3 4 5 => appended 5
flush => flushing 10
write 10 => written 10 pending 0
open 1 => reader 1 open
look 1 5 => reader 1 looking
append 6 => appended 6
flush => flushing 6
write 6 => written 6 pending 0
append 7 => appended 7
flush => flushing 6
write 6 => written 6 pending 0
look 1 9 => reader 1 rows 7

# the same in the one attempt
$ play --type i32le --chunk 1 --attempts 1
append 1 2 3 4 5 => appended 5
flush => flushing 10
write 10 => written 10 pending 0
open 1 => reader 1 open
look 1 5 => reader 1 looking
append 6 => appended 6
flush => flushing 6
write 6 => written 6 pending 0
append 7 => appended 7
flush => flushing 6
write 6 => written 6 pending 0
look 1 9 => reader 1 again 1

# the sixth row of five chunks of a row, seen in five looks
$ play --type i32le --chunk 1
append 1 2 3 4 5 => appended 5
flush => flushing 10
write 10 => written 10 pending 0
open 1 => reader 1 open
look 1 9 => reader 1 rows 5
append 6 => appended 6
flush => flushing 6
write 6 => written 6 pending 0
refresh 1 => reader 1 refresh
look 1 4 => reader 1 looking
look 1 1 => reader 1 rows 6

# a stop before the last piece leaves the rows that were flushed
$ play --type i64be --chunk 1
append 1 2 3 4 5 => appended 5
flush => flushing 10
write 10 => written 10 pending 0
append 6 => appended 6
flush => flushing 6
write 5 => written 5 pending 1
stop => stopped
open 1 => reader 1 open
look 1 9 => reader 1 rows 5

# a fill is the greatest value of its type
$ play --type u8 --chunk 2 --fill 255
append 1 => appended 1
flush => flushing 5
write 9 => written 5 pending 0
open 1 => reader 1 open
look 1 9 => reader 1 rows 1
read 1 0 1 => reader 1 read
look 1 9 => reader 1 values 1

# a fill of a signed type
$ play --type i8 --chunk 2 --fill 127
append 127 -128 => appended 2

# a fill past the greatest value
$ play --type u8 --chunk 2 --fill 256
=> error usage
= 2

# a fill past the greatest value of a signed type
$ play --type i16le --chunk 2 --fill 32768
=> error usage
= 2

# a fill below 0
$ play --type i16le --chunk 2 --fill -1
=> error usage
= 2

# no type has this name
$ play --type i24le --chunk 2
=> error usage
= 2

# one byte has no order
$ play --type i8le --chunk 2
=> error usage
= 2

# several bytes have one
$ play --type u16 --chunk 2
=> error usage
= 2

# a stop after 16 of the 17 pieces of a data block's copy
$ play --type u8 --chunk 1
append 0*32757 => appended 32757
flush => flushing 33390
write 999999 => written 33390 pending 0
append 1 => appended 32758
flush => flushing 23
write 17 => written 17 pending 6
stop => stopped
open 1 => reader 1 open
look 1 999999 => reader 1 rows 32757
read 1 32756 1 => reader 1 read
look 1 9 => reader 1 values 0

# as many chunks as there may be
$ play --type u8 --chunk 1 --budget 1073741824
append 0*32765 => appended 32765
append 0*32765 => appended 65530
append 0*32765 => appended 98295
append 0*32765 => appended 131060
append 0 => full chunks 131061 131060
flush => flushing 133310
write 999999 => written 133310 pending 0
append 1 => full chunks 131061 131060
open 1 => reader 1 open
look 1 99999999 => reader 1 rows 131060
read 1 131059 1 => reader 1 read
look 1 9 => reader 1 values 0
";
