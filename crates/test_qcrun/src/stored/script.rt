//! The script whose replies are stored: 2000 lines that a seeded program chose.

/// One cache, each other command at least thirty times, and keys of different hashes.
pub const SCRIPT: &str = "\
cache 40 40\nshow\nload 39 1\npeek 39\ninsert 24 1\nget 571\ninsert 68 1\ninsert 21 1\n\
insert 32 1\nget 59\ninsert 44 1\ninsert 27 1\nload 312 1\nhits\nload 20 1\ninsert 32 1\nhits\n\
get 39\ninsert 31 1\ninsert 797 1\ninsert 3 1\nget 3\nget 783\nget 66\nget 39\npeek 39\nget 24\n\
insert 341 1\ninsert 341 1\nstats 39\nget 44\npeek 8\ninsert 12 1\nget 31\nget 21\ninsert 380 1\n\
insert 11 1\nget 39\npeek 11\ninsert 54 1\npeek 39\nshow\npeek 54\nget 24\ninsert 40 1\nget 11\n\
insert 113 1\nget 3\ninsert 64 1\nget 64\nget 113\ninsert 57 1\nload 44 1\nload 13 1\npeek 32\n\
get 13\ninsert 63 1\nget 39\nget 63\ninsert 62 1\npeek 62\npeek 3\ninsert 57 1\nget 12\n\
insert 350 1\nget 310\nget 350\nget 2\nget 341\nget 39\nget 31\nshow\nget 350\ninsert 757 1\n\
get 39\nget 13\npeek 7\nget 44\nget 39\nhits\nshow\nget 757\ninsert 7 1\nget 350\ninsert 56 1\n\
insert 27 1\nget 56\nget 32\nload 19 1\nget 19\nget 27\nget 27\nstats 39\nload 10 1\nget 797\n\
load 37 1\nget 64\ninsert 1 1\nget 423\nhits\npeek 1\ninsert 678 1\ninsert 33 1\npeek 27\npeek 33\n\
insert 43 1\ninsert 8 1\npeek 39\ninsert 56 1\ninsert 50 1\ninsert 55 1\nget 54\nget 21\nshow\n\
get 43\nshow\ninsert 69 1\ninsert 10 1\ninsert 41 1\nshow\nstats 32\ninsert 42 1\ninsert 15 1\n\
show\nget 8\ninsert 746 1\ninsert 704 1\nload 670 1\ninsert 5 1\ninsert 69 1\nload 40 1\nget 40\n\
get 37\ninsert 41 1\npeek 39\nget 57\nget 38\ninsert 12 1\ninsert 42 1\ninsert 723 1\ninsert 51 1\n\
stats 15\nhits\nget 51\nshow\nget 51\nstats 40\nload 33 1\nget 20\ninsert 17 1\ninsert 746 1\n\
get 17\nshow\nstats 723\ninsert 51 1\nget 17\nget 17\ninsert 54 1\npeek 746\ninsert 15 1\n\
insert 42 1\npeek 27\nget 33\nload 723 1\ninsert 811 1\nget 42\nload 44 1\ninsert 946 1\nget 946\n\
peek 19\nget 14\nget 946\nget 33\nhits\nstats 39\ninsert 704 1\nshow\nshow\ninsert 23 1\nstats 23\n\
insert 811 1\ninsert 300 1\nhits\ninsert 53 1\nget 27\nget 53\nload 41 1\nstats 31\nget 50\n\
get 53\ninsert 403 1\npeek 40\ninsert 8 1\ninsert 40 1\ninsert 37 1\ninsert 62 1\nshow\nget 403\n\
stats 403\ninsert 9 1\nload 25 1\npeek 15\nstats 17\ninsert 386 1\nshow\nshow\ninsert 341 1\n\
insert 320 1\ninsert 67 1\ninsert 67 1\nload 65 1\nget 48\ninsert 31 1\ninsert 670 1\n\
insert 300 1\nload 300 1\ninsert 320 1\nget 704\npeek 320\ninsert 38 1\nshow\nshow\nget 3\n\
insert 113 1\ninsert 95 1\ninsert 27 1\ndrop 1\ninsert 723 2\ninsert 110 2\ninsert 146 1\n\
drop 386\nfail 809\ninsert 13 2\nshow\ninsert 99 1\nload 115 2\ninsert 38 1\ndrop 5\nget 41\n\
insert 87 2\ninsert 113 2\ninsert 71 2\ninsert 100 1\ninsert 23 2\ninsert 100 1\nload 308 1\n\
get 113\ninsert 114 1\nload 308 1\ndrop 62\nshow\ninsert 779 1\ninsert 99 1\nget 32\ninsert 46 1\n\
load 36 1\nshow\ninsert 96 1\ninsert 36 1\ninsert 439 2\ninsert 9 2\ninsert 448 1\ndrop 267\nshow\n\
show\ninsert 29 1\ninsert 435 2\ninsert 0 1\nget 0\ninsert 25 1\nshow\nfail 685\ndrop 73\n\
load 38 1\nshow\nguard 938 1\nload 629 1\ninsert 92 1\nshow\nfail 938\nguard 450 1\ninsert 779 1\n\
insert 43 2\nload 74 1\ninsert 435 1\ninsert 629 2\ninsert 51 2\ndrop 93\nshow\nget 38\nload 74 1\n\
insert 46 2\ninsert 70 1\nload 8 2\nget 70\nfail 87\ninsert 614 2\nload 62 1\ninsert 113 1\n\
insert 936 1\ninsert 114 1\ninsert 51 1\nget 21\ninsert 117 2\nget 117\nshow\nshow\nget 117\nshow\n\
get 117\nshow\ninsert 65 1\nload 54 1\ninsert 2 2\nfail 96\ninsert 75 1\ninsert 43 2\n\
insert 779 2\nload 95 2\nload 448 1\ninsert 110 2\ninsert 773 1\ninsert 45 1\ninsert 71 1\nget 70\n\
get 448\nget 95\nguard 20 1\nfail 41\ninsert 179 1\nget 179\ninsert 117 2\nget 300\ninsert 146 2\n\
get 22\ninsert 58 2\nshow\ninsert 92 2\nget 9\nguard 51 1\nguard 636 2\ninsert 93 2\ninsert 71 2\n\
guard 102 2\ninsert 94 2\ninsert 439 1\nshow\ninsert 94 1\ninsert 48 1\nshow\nfail 115\n\
insert 1 2\ninsert 48 1\ninsert 602 1\ninsert 43 2\ninsert 450 1\nfail 79\nguard 37 1\nguard 68 1\n\
show\nload 161 2\nshow\ninsert 26 1\ninsert 105 1\ninsert 29 1\ninsert 53 1\ninsert 773 2\n\
fail 93\ninsert 53 1\nshow\ninsert 692 2\ninsert 53 1\ninsert 609 1\ninsert 614 2\nget 70\n\
fail 20\nfail 31\nload 2 2\ninsert 649 1\ninsert 66 1\nload 609 2\nget 239\ninsert 18 1\n\
insert 602 1\ninsert 62 1\ninsert 18 1\ninsert 54 1\nshow\nshow\ninsert 409 1\ninsert 993 1\n\
insert 76 2\nshow\nguard 109 1\nguard 636 2\nget 773\nguard 68 2\ninsert 70 1\ninsert 20 1\n\
get 38\nget 439\nfail 47\ninsert 101 1\ninsert 73 1\ninsert 15 1\ninsert 20 1\nfail 73\n\
insert 76 2\ninsert 34 1\nshow\ninsert 982 1\nfail 671\nget 636\ninsert 75 2\ninsert 125 1\nshow\n\
drop 119\ndrop 37\nshow\nshow\ndrop 64\ninsert 439 1\nshow\nget 125\ninsert 38 1\ninsert 654 1\n\
insert 738 1\ninsert 2 1\ninsert 32 2\nfail 93\ninsert 980 1\nload 531 1\ninsert 32 1\ndrop 72\n\
insert 22 1\nguard 26 1\nguard 58 2\nget 13\nget 448\ninsert 738 1\nguard 89 1\ninsert 15 2\n\
fail 846\nguard 89 1\ninsert 92 2\nshow\nload 62 1\nget 26\nshow\nload 31 1\nguard 13 2\n\
insert 21 1\ninsert 87 1\nguard 155 1\ndrop 22\nfail 894\nguard 66 1\ninsert 636 1\ndrop 578\n\
insert 738 1\ninsert 612 2\ndrop 93\ninsert 85 1\ninsert 119 1\nshow\ndrop 92\nshow\ninsert 738 2\n\
insert 1 1\nfail 101\ninsert 117 1\nshow\nshow\nfail 867\ninsert 9 1\nfail 29\nget 1\nget 95\n\
insert 105 1\nshow\ninsert 101 2\nload 119 1\ndrop 101\nload 24 1\nload 21 1\nfail 161\n\
insert 692 2\nget 54\ndrop 15\nshow\ndrop 104\ninsert 81 1\nget 81\ninsert 335 1\ninsert 34 1\n\
show\nload 24 2\ndrop 13\nfail 9\ninsert 37 1\nload 37 1\ninsert 100 1\nfail 49\ninsert 649 2\n\
insert 370 1\ninsert 22 1\nload 63 1\ninsert 22 1\ninsert 62 1\ninsert 96 1\ninsert 85 1\n\
insert 150 1\nguard 96 1\ninsert 409 2\ninsert 69 1\ninsert 62 1\nget 53\nload 78 2\ninsert 79 1\n\
insert 299 2\nshow\nget 439\nget 53\ninsert 15 401\nget 299\nget 1\nremove 299\nremove 53\n\
insert 31 401\ninsert 69 403\ninsert 0 3\ninsert 44 2\ninsert 60 1\ninsert 878 1\ninsert 138 402\n\
insert 393 402\nremove 1\ninsert 994 1\nremove 393\nshow\nremoveif 70 3\nremove 60\nget 31\n\
insert 100 1\nremove 117\nremoveif 100 3\ninsert 59 1\ninsert 55 2\nremove 62\ninsert 79 401\n\
insert 727 1\ninsert 727 2\nremoveif 727 401\nremoveif 727 2\nshow\nremove 649\nremove 105\n\
insert 55 402\ninsert 15 402\nremove 81\ninsert 31 402\ninsert 138 403\nremoveif 55 3\nremove 44\n\
removeif 448 401\nget 138\ninsert 498 1\nremoveif 85 1\nget 498\nshow\nremoveif 498 2\nshow\n\
insert 14 1\nremove 498\ninsert 29 402\nget 37\nremove 29\nremove 857\nremoveif 448 1\nshow\n\
remove 37\nremove 59\nget 138\nremove 119\nshow\ninsert 66 3\ninsert 44 402\ninsert 612 2\nshow\n\
remove 381\nremoveif 409 401\ninsert 654 3\nget 654\nremove 612\ninsert 880 1\ninsert 150 2\n\
removeif 150 2\ninsert 994 401\nremove 880\ninsert 87 1\nshow\nremove 155\ninsert 8 403\nshow\n\
insert 138 1\ninsert 30 1\nshow\nget 8\ninsert 24 2\ninsert 51 3\nget 439\nremoveif 409 3\n\
insert 982 401\ninsert 993 401\nremoveif 66 1\nremove 993\ninsert 51 401\nremove 409\nremove 982\n\
get 26\nremove 26\ninsert 24 401\ninsert 39 1\ninsert 439 1\ninsert 335 1\nremove 87\nremove 335\n\
insert 38 401\nremove 69\ninsert 44 1\ninsert 370 1\nget 994\nremove 370\nget 619\ninsert 14 2\n\
insert 635 402\ninsert 40 1\ninsert 78 401\ninsert 40 1\ninsert 63 401\ninsert 0 1\nremove 635\n\
removeif 31 402\nget 439\nremove 878\ninsert 58 402\ninsert 1 401\ninsert 994 401\nremove 15\n\
insert 79 3\nremoveif 433 402\nremoveif 55 403\nremove 14\nremoveif 52 2\nremoveif 55 3\n\
insert 49 1\nget 44\nremoveif 49 3\nremoveif 439 403\nget 738\nshow\nremoveif 53 402\n\
insert 109 1\nremoveif 39 1\ninsert 654 402\nremove 70\nshow\ninsert 55 3\ninsert 531 1\n\
insert 41 1\nget 100\nremove 994\nremove 15\nshow\nremoveif 41 401\ninsert 138 1\nremoveif 138 2\n\
remove 41\ninsert 433 403\nremoveif 39 1\ninsert 29 2\nremoveif 55 3\nremove 29\nget 58\n\
remove 138\nremove 738\nget 38\nshow\nget 433\nget 38\nremoveif 433 1\nshow\ninsert 56 403\n\
remove 56\ninsert 49 3\nremove 28\nget 737\ninsert 170 1\nremove 170\ninsert 782 401\nremove 654\n\
insert 31 3\nget 31\nremove 38\nget 100\ninsert 0 1\nget 100\nshow\ninsert 74 1\nremove 78\n\
insert 10 1\ninsert 167 401\nremove 40\nremove 109\nremove 636\nremove 30\nremove 63\ninsert 57 2\n\
remove 44\ninsert 51 3\ninsert 57 3\ninsert 43 403\ninsert 14 2\ninsert 303 2\nremoveif 303 3\n\
show\ninsert 43 1\nget 436\nremove 24\ninsert 782 2\nshow\ninsert 303 2\nshow\nget 16\n\
insert 34 1\ninsert 19 1\nremove 34\nshow\nremoveif 303 1\ninsert 17 2\nshow\nshow\nset 14 1\n\
poke 17 3\nset 17 1\npoke 17 2\nshow\nget 17\npoke 17 0\nshow\ninsert 19 1\npoke 16 3\nshow\n\
set 17 1\nshow\npoke 17 1\npoke 19 2\nstats 303\npoke 0 1\ninsert 510 2\ninsert 56 3\nset 56 2\n\
show\npoke 17 2\ninsert 50 0\ninsert 840 1\nget 51\ninsert 510 2\ninsert 62 5\nget 50\nshow\n\
set 62 3\npoke 217 1\ninsert 58 1\nshow\ninsert 878 0\nset 62 3\nload 18 1\npoke 1 3\nset 62 1\n\
poke 878 1\npoke 50 3\npoke 439 1\npoke 100 2\ninsert 53 2\nshow\nset 100 3\nshow\npoke 19 2\n\
insert 12 1\nset 12 3\nshow\npoke 878 2\nset 12 1\nget 782\nshow\nshow\npoke 12 2\ninsert 39 3\n\
insert 39 0\nset 12 5\nshow\nset 100 0\ninsert 53 1\npoke 18 0\nset 14 2\npoke 51 2\ninsert 23 3\n\
show\nset 50 2\nget 18\nshow\ninsert 840 0\ninsert 749 2\ninsert 23 0\nset 18 2\ninsert 2 5\n\
poke 51 2\nload 50 1\ninsert 183 1\nset 39 3\ninsert 43 1\npoke 57 2\npoke 782 0\ninsert 289 0\n\
poke 439 2\nset 14 1\nset 39 5\npoke 100 1\npoke 43 5\ninsert 6 1\nset 14 1\nload 12 0\nshow\n\
insert 2 0\npoke 23 3\nget 840\ninsert 712 3\npoke 30 0\nset 712 1\nset 712 0\ninsert 6 2\n\
insert 269 1\ninsert 153 1\nset 14 1\nget 0\nshow\nset 712 0\nload 323 0\npoke 840 1\ninsert 21 1\n\
poke 57 5\nset 782 1\nset 323 0\npoke 289 3\ninsert 439 0\ninsert 135 5\nshow\npoke 100 3\nshow\n\
set 135 5\nset 30 0\npoke 289 3\ninsert 21 0\npoke 30 0\ninsert 393 0\npoke 2 2\nget 18\n\
set 782 1\npoke 323 1\nset 21 5\ninsert 18 0\ninsert 30 2\nset 712 1\nset 712 0\nset 50 1\nget 21\n\
poke 0 1\nset 12 2\ninsert 782 1\ninsert 1 2\ninsert 570 2\npoke 30 3\npoke 12 1\npoke 30 5\nshow\n\
poke 19 1\npoke 570 3\ninsert 1 0\nshow\nshow\nset 67 1\nshow\nshow\nstats 393\ninsert 100 0\n\
set 100 3\nset 51 0\npoke 58 0\nset 135 5\nset 323 1\nshow\nshow\npoke 58 1\nshow\nset 439 1\n\
poke 51 5\npoke 1 3\nshow\ninsert 9 3\nload 30 3\npoke 49 0\nset 323 3\nshow\ninsert 9 0\n\
insert 36 0\nset 764 2\nset 0 5\ninsert 393 3\nload 29 1\nshow\nshow\ninsert 782 1\ninsert 2 0\n\
show\npoke 540 1\nset 29 3\ninsert 18 2\nget 5\npoke 712 1\npoke 36 3\npoke 9 1\nshow\nstats 9\n\
poke 2 2\ninsert 185 1\npoke 185 1\nset 185 1\npoke 185 0\nset 36 3\nset 185 5\nshow\nload 31 0\n\
set 67 1\ninsert 9 3\ninsert 2 0\ninsert 55 2\nset 8 3\nset 55 0\nset 31 5\nset 55 0\ninsert 12 1\n\
insert 439 0\npoke 51 3\nstats 439\nset 439 1\ninsert 560 0\npoke 2 0\npoke 2 1\ninsert 62 1\n\
insert 55 1\nset 560 5\ninsert 29 2\nset 36 2\nshow\ninsert 18 0\nset 18 1\npoke 21 2\npoke 62 0\n\
set 48 5\nget 62\nset 62 5\npoke 782 1\nload 7 3\nset 18 0\npoke 18 1\npoke 62 0\ninsert 254 5\n\
insert 775 5\npoke 185 0\nshow\ninsert 64 1\npoke 64 1\ninsert 7 0\npoke 775 0\nget 9\nshow\n\
set 2 5\nload 0 0\nload 750 0\nstats 439\ninsert 110 1\ninsert 7 1\nset 62 3\nset 13 5\nset 750 3\n\
show\nset 775 5\ninsert 26 3\ninsert 815 1\nshow\nshow\nreplace 55 45\ninsert 38 1\nsoft 0 1\n\
show\nsoft 18 1\ninsert 12 1\ninsert 5 1\nreplace 62 3\nsoft 5 2\ninsert 26 3\ninsert 38 2\n\
stats 185\nget 185\nreplace 185 2\nshow\nshow\nget 54\nreplace 185 45\nsoft 775 0\ninsert 5 45\n\
show\nsoft 775 2\nreplace 439 401\nsoft 782 0\nstats 607\ninsert 5 8\nsoft 775 408\nget 750\n\
get 782\ninsert 49 8\nsoft 49 1\nreplace 14 1\nshow\nreplace 782 445\nsoft 18 0\nreplace 4 1\n\
insert 331 45\ninsert 27 400\ninsert 42 8\nreplace 62 0\nreplace 9 1\nshow\nshow\nget 42\n\
replace 42 1\ninsert 43 45\nsoft 750 8\nsoft 750 8\nshow\nsoft 24 8\nget 53\ninsert 28 8\n\
insert 943 1\nsoft 943 1\nget 943\nget 18\nsoft 62 3\nsoft 675 1\ninsert 43 1\nget 750\nstats 18\n\
show\ninsert 28 8\nget 28\nget 38\nreplace 18 45\nsoft 9 401\nshow\nget 896\ninsert 49 8\n\
soft 27 3\nsoft 27 402\nshow\ninsert 43 0\nreplace 943 1\nsoft 43 1\nreplace 43 45\nstats 42\n\
insert 514 0\nsoft 62 45\nget 943\ninsert 28 1\ninsert 36 1\ninsert 151 8\ninsert 27 45\nshow\n\
insert 723 1\nreplace 943 2\nreplace 28 402\nsoft 514 401\nstats 723\nreplace 4 3\n\
replace 514 445\nreplace 723 3\nreplace 9 8\nsoft 750 45\nreplace 42 45\nsoft 57 1\ninsert 10 45\n\
soft 28 45\ninsert 57 403\ninsert 28 8\nreplace 943 1\nreplace 38 2\ninsert 145 45\nsoft 38 403\n\
soft 38 445\nsoft 28 2\ninsert 577 402\nreplace 1 3\nreplace 151 445\nsoft 577 45\ninsert 114 0\n\
insert 29 401\nget 9\ninsert 897 45\nreplace 621 445\ninsert 6 402\ninsert 20 3\ninsert 16 1\n\
get 114\ninsert 28 3\nget 114\ninsert 35 0\nget 114\ninsert 45 3\ninsert 943 45\nstats 114\n\
soft 737 400\nsoft 114 1\nsoft 54 445\nsoft 57 8\ninsert 30 3\nsoft 35 1\nshow\ninsert 566 45\n\
show\nsoft 35 45\nget 938\nget 30\nsoft 27 8\ninsert 56 408\nsoft 6 402\nget 723\nget 7\n\
replace 28 8\nshow\nreplace 723 2\nreplace 28 0\nsoft 28 45\nreplace 30 1\ninsert 56 1\nstats 56\n\
soft 30 2\nshow\nget 56\ninsert 32 401\nshow\nreplace 32 2\nget 29\nreplace 32 3\ninsert 57 2\n\
replace 29 8\nget 568\nsoft 710 0\nsoft 29 0\nshow\nsoft 57 1\ninsert 16 1\nreplace 29 0\n\
soft 29 8\nreplace 6 3\nsoft 114 1\nreplace 45 408\nsoft 29 3\nsoft 723 2\nreplace 29 8\n\
soft 6 403\nget 41\nget 16\ninsert 21 402\nsoft 21 8\nget 16\nget 6\nshow\nget 10\nshow\n\
insert 42 3\ninsert 21 45\ninsert 128 3\nsoft 128 408\ninsert 35 408\nshow\ninsert 128 45\nshow\n\
replace 35 8\nshow\ninsert 5 8\nshow\nfail 26\nsoft 19 3\ninsert 21 201\nload 34 400\nget 21\n\
get 34\nsoft 723 2\nremove 21\ninsert 12 301\nfail 29\nshow\nshow\nload 42 0\ninsert 128 403\n\
load 10 345\nsoft 32 1\nload 22 302\nfail 436\ninsert 10 301\nsoft 946 1\nload 161 401\n\
insert 22 401\nguard 19 201\ninsert 795 300\nshow\ninsert 984 1\nget 984\nremoveif 34 400\n\
insert 40 301\nguard 8 245\nset 42 345\ninsert 197 201\ninsert 161 300\ninsert 161 0\nload 58 45\n\
show\nfail 44\nremove 197\ninsert 645 45\nguard 26 101\ninsert 588 1\ninsert 29 1\n\
removeif 26 101\nremove 161\ninsert 25 103\ninsert 752 402\ninsert 29 200\nload 41 301\n\
insert 107 345\ninsert 50 2\npoke 375 401\nguard 905 103\ndrop 43\npoke 752 101\ninsert 752 203\n\
insert 128 445\nget 25\nget 752\ninsert 576 400\ninsert 260 2\nshow\ninsert 256 303\n\
insert 16 401\ninsert 26 303\ninsert 531 401\nguard 37 400\ninsert 43 1\nset 25 301\nset 25 1\n\
load 16 101\nget 43\nsoft 655 402\nget 25\ninsert 161 303\ninsert 674 402\ninsert 242 345\n\
load 236 445\nload 26 102\nget 588\nset 25 3\ninsert 15 1\nload 42 200\ndrop 8\nset 42 2\n\
insert 754 301\nset 107 145\nshow\nsoft 37 301\nreplace 107 45\ninsert 8 101\nremoveif 19 302\n\
insert 686 345\nshow\nshow\nshow\ninsert 59 102\nsoft 686 201\nset 24 303\nremoveif 686 201\n\
insert 905 403\nget 59\nremoveif 59 345\nget 752\ninsert 9 345\nshow\ninsert 50 103\ninsert 42 1\n\
load 52 101\ndrop 3\ninsert 881 45\nshow\nremoveif 752 200\ninsert 833 401\nguard 577 203\nget 0\n\
show\nreplace 576 445\ndrop 3\ninsert 9 201\nremove 795\nset 19 400\nremoveif 577 203\n\
replace 29 301\nget 29\ninsert 514 300\ninsert 5 401\ninsert 59 301\nsoft 514 101\nsoft 19 402\n\
show\npoke 19 101\nsoft 514 1\ninsert 679 45\ninsert 486 301\ninsert 49 301\ninsert 8 45\n\
set 19 200\ninsert 943 300\ninsert 406 145\nsoft 406 145\ninsert 14 201\nshow\nsoft 19 245\n\
load 53 201\nreplace 406 203\ninsert 54 0\ninsert 49 245\nguard 33 1\nremoveif 33 1\n\
insert 40 303\nremove 40\ninsert 27 302\ninsert 745 302\nload 35 345\ndrop 561\ninsert 59 0\n\
removeif 50 403\ninsert 6 402\nshow\nsoft 50 101\nget 745\nremoveif 59 0\nload 55 0\nget 406\n\
insert 577 201\ninsert 705 100\nguard 6 201\nget 406\nguard 21 101\ninsert 39 45\nshow\n\
load 42 201\nset 406 345\nshow\ninsert 55 45\npoke 745 345\npoke 406 302\npoke 19 1\nshow\n\
remove 19\nget 943\ninsert 51 301\nget 51\ninsert 26 303\ninsert 27 45\ninsert 56 1\npoke 55 401\n\
show\nremove 49\nget 51\nremove 705\ninsert 21 345\ninsert 39 301\nremoveif 488 401\nget 51\n\
insert 951 302\nget 44\ndrop 40\nshow\nset 6 201\ninsert 41 300\nget 51\nremove 56\nshow\n\
insert 211 0\nremove 51\ninsert 733 303\ndrop 985\ninsert 16 201\nremoveif 406 302\n\
insert 755 201\nguard 919 345\ninsert 42 0\nremoveif 48 201\nset 919 445\ninsert 42 303\n\
load 8 303\nguard 781 302\nshow\ninsert 40 3\npoke 40 300\nguard 3 145\nsoft 52 400\n\
insert 16 203\ninsert 39 1\ninsert 26 300\ninsert 855 303\nget 50\ninsert 10 301\nsoft 202 401\n\
guard 2 445\ninsert 1 102\nget 1\nload 57 1\ninsert 26 45\nload 597 1\nload 52 201\ninsert 26 301\n\
insert 220 1\nshow\ninsert 374 1\ncapacity 41\ninsert 8 1\nshow\nget 50\nshow\nget 14\n\
load 167 103\nshow\nget 577\ninsert 24 3\nget 3\nget 943\ninsert 211 1\ncapacity 30\nshow\nhits\n\
show\ncapacity 41\ninsert 33 1\ninsert 582 1\ncapacity 100\ninsert 688 1\nget 582\ncapacity 30\n\
get 3\ncapacity 40\nshow\ninsert 14 3\nload 68 102\ninsert 33 101\nget 33\nget 68\nget 68\n\
poke 943 2\ncapacity 39\nget 41\ncapacity 80\nshow\nload 631 3\ninsert 54 1\ncapacity 80\n\
poke 3 1\ninsert 38 2\nget 167\ninsert 10 1\nget 63\ninsert 534 101\ncapacity 30\ncapacity 40\n\
insert 61 101\nget 61\nget 61\nget 755\ninsert 67 1\nremove 54\ncapacity 20\nshow\nget 65\n\
insert 6 1\nget 631\ninsert 501 2\ninsert 38 2\nload 38 1\nhits\npoke 6 1\ninsert 676 2\n\
capacity 100\nhits\ninsert 1 1\ncapacity 100\ncapacity 40\ninsert 56 1\nload 633 3\nget 56\n\
poke 676 102\ninsert 16 1\nshow\nget 16\ncapacity 20\nremove 501\nshow\ncapacity 39\nget 38\n\
capacity 39\ninsert 582 1\nget 40\ninsert 605 1\ncapacity 39\nget 9\ncapacity 60\ncapacity 40\n\
capacity 41\nget 167\ninsert 773 2\ninsert 881 1\npoke 881 3\ncapacity 41\nget 8\npoke 676 3\n\
capacity 40\ncapacity 100\ncapacity 60\ncapacity 60\ninsert 44 3\nshow\ninsert 27 1\ninsert 40 2\n\
show\ninsert 43 2\nget 676\ninsert 51 101\npoke 676 3\ncapacity 40\ncapacity 40\nload 55 101\n\
show\ncapacity 5\nshow\nshow\ninsert 24 101\nremove 55\nshow\nhits\nget 24\ninsert 24 101\n\
insert 22 1\nget 22\ncapacity 60\ninsert 40 1\ninsert 30 1\ninsert 978 1\ncapacity 41\n\
capacity 40\nshow\nget 61\ncapacity 40\ninsert 556 1\nget 9\ninsert 666 1\ninsert 556 1\nget 22\n\
show\nget 68\ncapacity 80\ninsert 398 2\nhits\nget 9\ninsert 690 1\ncapacity 40\ninsert 54 1\n\
get 577\nload 796 2\ninsert 65 1\ninsert 119 3\ninsert 664 101\ncapacity 20\ncapacity 40\nshow\n\
get 664\ninsert 104 1\ninsert 893 103\nshow\nget 53\nget 119\nshow\ncapacity 60\ninsert 44 2\n\
get 9\ncapacity 80\ninsert 14 1\nremove 51\nhits\ninsert 5 1\ninsert 40 3\ncapacity 60\nshow\n\
capacity 80\ninsert 47 3\ncapacity 40\ncapacity 10\ninsert 23 1\nload 859 1\nclear\nshow\n\
insert 990 1\nclear\nclear\nhits\ninsert 13 1\nclear\ninsert 18 301\ninsert 18 300\nshow\nclear\n\
insert 20 2\nclear\nclear\nclear\nhits\ninsert 9 2\ndrop 501\ninsert 28 302\ndrop 7\nclear\n\
fail 11\ninsert 9 1\nclear\nget 10\nhits\ninsert 65 1\nclear\nclear\nclear\nshow\ninsert 630 301\n\
fail 36\ninsert 662 301\ninsert 630 301\ninsert 28 1\nclear\nclear\ninsert 9 302\nclear\n\
load 38 1\ninsert 33 0\ninsert 957 0\nstats 33\ninsert 5 302\nfail 33\nclear\nclear\nfail 194\n\
load 32 1\nget 32\nhits\ninsert 780 300\ninsert 430 1\nget 780\nclear\ndrop 41\nget 30\nclear\n\
clear\nclear\ninsert 33 1\nfail 564\nget 602\nclear\nshow\nstats 905\nclear\ndrop 17\nget 37\n\
clear\ninsert 16 0\nclear\ninsert 3 1\nclear\nload 20 0\ninsert 230 301\nfail 25\nclear\n\
guard 14 0\nguard 1 1\nclear\ninsert 3 302\nget 3\ninsert 33 1\ninsert 435 2\ninsert 13 2\nclear\n\
show\nclear\nhits\ninsert 724 300\nfail 5\ninsert 26 1\nhits\ninsert 10 302\nfail 525\nget 10\n\
insert 33 302\ninsert 3 1\ninsert 27 301\nstats 724\nshow\ninsert 38 0\ninsert 25 1\nhits\nclear\n\
show\nguard 29 301\nshow\nguard 65 2\nclear\ninsert 0 1\nclear\ncapacity 40\nshow\nhits\n\
capacity 40\ncapacity 40\nremove 668\ninsert 28 401\npoke 28 1\nstats 28\nstats 28\n\
removeif 28 307\nremoveif 28 1\nshow\nguard 55 201\nreplace 55 101\nset 55 445\nsoft 508 3\n\
fail 63\nhits\nreplace 6 1\nguard 451 100\nstats 451\nremove 451\nhits\nload 78 3\nshow\n\
remove 78\nload 56 0\nsoft 56 402\nget 56\ninsert 29 307\npeek 29\nshow\nremove 29\nguard 528 2\n\
hits\nremoveif 56 1\nload 890 3\ninsert 206 1\nshow\nstats 40\nhits\nset 528 1\nremoveif 528 307\n\
peek 528\ninsert 77 1\nget 77\nload 22 7\nstats 22\nsoft 22 301\ndrop 792\nguard 66 45\n\
load 848 303\nsoft 22 3\nsoft 890 201\ncapacity 40\nhits\ninsert 66 301\ninsert 936 1\nload 36 2\n\
insert 50 445\ndrop 68\ninsert 855 207\ndrop 176\nget 855\nguard 20 403\ninsert 56 1\n\
soft 855 103\nset 855 1\nhits\nreplace 855 1\ninsert 41 302\nsoft 855 1\nhits\ndrop 40\n\
load 669 245\ninsert 89 207\ndrop 40\nremove 890\nhits\npeek 89\nguard 952 100\nfail 8\n\
insert 198 407\nstats 669\npeek 952\nload 829 102\ncapacity 40\ncapacity 40\nshow\ndrop 53\nhits\n\
hits\nremove 198\nset 41 0\nremove 669\ndrop 35\nremoveif 41 1\nshow\nremove 952\nremove 56\n\
remove 829\nsoft 89 1\nfail 88\nget 89\nremoveif 89 1\nget 29\ndrop 115\nhits\ninsert 72 1\n\
peek 22\nhits\nget 41\nhits\nset 855 3\nget 41\npoke 855 45\ninsert 69 7\nguard 478 403\nget 69\n\
set 41 401\nremove 69\nshow\npoke 478 7\nremoveif 478 303\npeek 478\nload 614 407\nguard 11 200\n\
insert 478 1\nremoveif 47 7\nstats 29\npoke 527 7\nreplace 614 2\nload 288 1\nhits\nfail 66\n\
stats 614\ninsert 87 107\nremove 478\nshow\nshow\nget 11\nguard 0 3\nget 9\nget 0\ndrop 53\n\
removeif 614 2\nremoveif 0 45\nget 41\npoke 0 1\nstats 171\npoke 57 200\npeek 0\ncapacity 40\n\
stats 11\nremoveif 11 0\nsoft 288 1\nget 11\ninsert 24 345\nshow\ninsert 78 203\nset 11 301\n\
get 288\nfail 75\nstats 11\nstats 24\npeek 288\nfail 75\nhits\nget 11\nshow\nload 68 2\nshow\n\
get 87\nreplace 11 1\nremove 24\nremoveif 26 45\nload 52 45\nhits\ninsert 37 301\nreplace 68 401\n\
hits\nremoveif 37 301\nstats 36\nremove 58\ninsert 66 1\nsoft 41 0\nreplace 41 3\nclear\n\
set 68 402\nset 970 7\nset 256 407\nload 19 3\nget 19\nload 540 45\nguard 71 2\nshow\npeek 19\n\
insert 76 3\nfail 70\nreplace 61 2\nsoft 76 0\nremove 19\nset 71 301\nload 82 1\ncapacity 40\n\
insert 62 102\nreplace 76 203\nget 82\nget 82\nstats 76\ninsert 64 101\nstats 76\nget 71\n\
load 755 107\ninsert 82 1\ninsert 767 0\ninsert 591 101\nfail 26\nguard 11 202\nremove 591\n\
remove 71\nfail 48\nremove 767\nreplace 82 45\ncapacity 40\nremove 11\nstats 64\nguard 30 101\n\
set 62 1\nhits\nstats 29\npeek 16\npoke 755 102\nload 50 101\ninsert 50 45\nremove 30\n\
set 755 400\ndrop 45\npeek 755\nguard 51 1\nremove 62\nfail 957\nremove 223\nremoveif 72 301\n\
replace 763 202\npoke 25 201\nsoft 755 401\nload 48 3\nshow\nshow\nget 48\nfail 89\ninsert 48 100\n\
peek 48\nreplace 755 402\nstats 48\nload 10 1\nreplace 48 403\nhits\nshow\n\
";
