//! What runs print, from outside.

/// The scramble of stream 0 of `ZEROS`.
pub(crate) const SCRAMBLE: &str =
    "UR4+ DR4+ DL5- UL5+ U3- R2+ D4+ L1- ALL3- y2 U3- R4+ D2- L4+ ALL3+\n";

/// The same of the events with tables, with what tells how many positions of each table are so many turns from a goal:
/// of the 2x2x2 it is that of state 3015702, of the Pyraminx that of 52354422, of the Skewb that of 1965942.
pub(crate) const BY_TABLES: [(&str, &str, &str); 5] = [
    (
        "222",
        "R2 U R' F U2 F' U R U\n",
        "table corners positions 3674160 bound 11\n0 1\n1 9\n2 54\n3 321\n4 1847\n5 9992\n6 50136\n\
    7 227536\n8 870072\n9 1887748\n10 623800\n11 2644\n",
    ),
    (
        "pyram",
        "R L' U' R B' U B' r' b'\n",
        "table pyramid positions 933120 bound 11\n0 1\n1 8\n2 48\n3 288\n4 1728\n5 9896\n6 51808\n\
    7 220111\n8 480467\n9 166276\n10 2457\n11 32\n",
    ),
    (
        "skewb",
        "B R' L' R L U R'\n",
        "table skewb positions 3149280 bound 11\n0 1\n1 8\n2 48\n3 288\n4 1728\n5 10248\n6 59304\n\
    7 315198\n8 1225483\n9 1455856\n10 81028\n11 90\n",
    ),
    (
        "333",
        "U2 F2 U R2 B2 U' B2 D2 U B2 R D2 R2 D B F2 D' U2 F L\n",
        "table flips positions 2048 bound 7\n0 1\n1 2\n2 25\n3 202\n4 620\n5 900\n6 285\n7 13\n\
    table slice positions 1082565 bound 13\n0 1\n1 2\n2 17\n3 134\n4 1065\n5 8190\n6 54694\n7 267576\n8 560568\n\
    9 187204\n10 3114\n\
    table tetrads positions 29400 bound 15\n0 1\n1 2\n2 9\n3 36\n4 124\n5 530\n6 1806\n7 3732\n8 5158\n9 7070\n\
    10 7218\n11 3202\n12 488\n13 24\n\
    table halves positions 663552 bound 17\n0 1\n1 6\n2 27\n3 120\n4 519\n5 1932\n6 6484\n7 20310\n8 55034\n\
    9 113892\n10 178495\n11 179196\n12 89728\n13 16176\n14 1488\n15 144\n\
    table flipslice positions 1013760 bound 12\n0 1\n1 4\n2 50\n3 532\n4 4804\n5 41832\n6 238263\n7 555636\n\
    8 172314\n9 324\n\
    table twistslice positions 1082565 bound 12\n0 1\n1 4\n2 50\n3 586\n4 6184\n5 54066\n6 296322\n7 582492\n\
    8 142520\n9 340\n\
    table cornerslice positions 967680 bound 18\n0 1\n1 10\n2 67\n3 404\n4 2023\n5 8504\n6 28545\n7 69734\n\
    8 127540\n9 179700\n10 189120\n11 199200\n12 116112\n13 44416\n14 2304\n\
    table edgeslice positions 967680 bound 18\n0 1\n1 10\n2 67\n3 456\n4 3063\n5 18202\n6 86691\n7 290812\n\
    8 434814\n9 120488\n10 11818\n11 1114\n12 144\n",
    ),
    (
        "sq1",
        "(-2,0) / (2,2) / (-5,1) / (2,2) / (1,1) / (-1,-1) / (-2,-5) / (-1,-1) / (1,4) / (-1,2) / (-2,-5) / (-1,2) \
    / (0,-3) / (0,-2) / (0,-3) / (4,-1) / (0,-4) / (2,-5) / (3,6)\n",
        "table shapes positions 7356 bound 13\n0 4\n1 16\n2 88\n3 240\n4 1772\n5 3800\n6 1400\n7 36\n\
    table pairings positions 11025 bound 20\n0 1\n1 4\n2 32\n3 248\n4 1596\n5 4664\n6 4336\n7 144\n\
    table square positions 73728 bound 20\n0 16\n1 256\n2 2432\n3 13952\n4 30128\n5 22656\n6 4288\n",
    ),
];

/// The scramble of the Megaminx.
pub(crate) const SCRAMBLE_MINX: &str =
    "R-- D++ R++ D-- R++ D++ R++ D-- R-- D-- U' R-- D++ R++ D++ R-- D++ R-- D-- R-- D-- U' R-- D++ \
    R++ D++ R++ D-- R++ D++ R-- D++ U R-- D++ R-- D-- R-- D-- R-- D++ R-- D++ U R++ D-- R-- D-- R++ \
    D++ R++ D++ R++ D-- U' R++ D++ R++ D++ R-- D-- R-- D-- R-- D-- U' R++ D-- R-- D++ R-- D-- R-- \
    D-- R-- D-- U'\n";

/// A sheet of two rounds, of two groups and of one, as the first version of the program printed it.
pub(crate) const SHEET: [&str; 29] = [
    "Round 1: Clock, at least 3\n",
    "Group A\n",
    "1. UR2- DR4+ DL5+ UL3+ U4+ R2- D4- L1- ALL3- y2 U1- R3- D1- L5+ ALL2+\n",
    "2. UR4- DR4- DL4- UL4- U2- R1- D0+ L3+ ALL3+ y2 U1- R1+ D0+ L3+ ALL1+\n",
    "3. UR1- DR4+ DL2+ UL2+ U2+ R3- D5- L3- ALL2- y2 U1- R0+ D6+ L3- ALL0+\n",
    "4. UR2- DR2+ DL5+ UL6+ U1- R2- D1- L6+ ALL4+ y2 U5+ R4- D2- L1- ALL3-\n",
    "5. UR3+ DR0+ DL3+ UL4+ U3- R6+ D4- L1- ALL6+ y2 U2+ R1- D4- L3+ ALL1-\n",
    "E1. UR5+ DR3+ DL4- UL5- U3+ R3+ D3+ L0+ ALL5- y2 U1- R5+ D4- L5+ ALL2-\n",
    "E2. UR3- DR5+ DL1+ UL2- U3- R5+ D4+ L3+ ALL1- y2 U1+ R5- D0+ L4- ALL4+\n",
    "\n",
    "Group B\n",
    "1. UR4- DR1- DL5+ UL4- U3- R4+ D2+ L4+ ALL1+ y2 U1- R5+ D3+ L4- ALL6+\n",
    "2. UR2+ DR0+ DL3+ UL5- U2- R1+ D4- L3- ALL4+ y2 U5- R4+ D1+ L2- ALL4-\n",
    "3. UR5+ DR2- DL6+ UL5+ U4- R1- D1+ L3- ALL2+ y2 U1+ R5- D5+ L4+ ALL3+\n",
    "4. UR1- DR6+ DL1- UL3- U2+ R4- D1+ L2- ALL1- y2 U2- R3- D3+ L2+ ALL3-\n",
    "5. UR3- DR4+ DL4- UL4- U1+ R1+ D5- L4+ ALL2+ y2 U2+ R1- D5+ L2+ ALL4+\n",
    "E1. UR2- DR4+ DL4+ UL3- U4- R6+ D6+ L4- ALL5- y2 U2+ R6+ D3- L1+ ALL6+\n",
    "E2. UR3- DR3+ DL1- UL1+ U0+ R4+ D0+ L4+ ALL2+ y2 U1+ R1- D4- L2- ALL5+\n",
    "\n",
    "Round 2: Clock, at least 0\n",
    "Group A\n",
    "1. UR0+ DR5- DL4+ UL2- U3- R6+ D3+ L4- ALL6+ y2 U1- R4- D0+ L2- ALL6+\n",
    "2. UR6+ DR5- DL1- UL4- U4- R5+ D5+ L1- ALL4- y2 U5+ R4+ D5+ L4- ALL2+\n",
    "3. UR4- DR2+ DL6+ UL3- U2- R1+ D5+ L4+ ALL1+ y2 U1+ R2- D5- L3+ ALL5+\n",
    "4. UR0+ DR3+ DL3+ UL4+ U5+ R4- D3+ L1+ ALL1+ y2 U3+ R2+ D4+ L5- ALL3+\n",
    "5. UR2+ DR0+ DL4- UL4- U1+ R4- D2- L2- ALL2- y2 U2- R4+ D4- L0+ ALL0+\n",
    "E1. UR5- DR2+ DL4- UL1+ U4+ R2- D1- L3+ ALL3- y2 U0+ R1- D4+ L3- ALL1-\n",
    "E2. UR1- DR5+ DL2+ UL5+ U0+ R2+ D2+ L5- ALL2+ y2 U5- R6+ D2+ L2+ ALL6+\n",
    "\n",
];

/// What `net` writes of the 2x2x2 and `ZEROS`: its net is from a model that turns stickers in space.
pub(crate) const NET_222: [&str; 7] = [
    "R2 U R' F U2 F' U R U\n",
    "   LF\n",
    "   DD\n",
    "BR FF LU LU\n",
    "LF UB RR BB\n",
    "   RU\n",
    "   DD\n",
];

/// The same of the 3x3x3.
pub(crate) const NET_333: [&str; 10] = [
    "U2 F2 U R2 B2 U' B2 D2 U B2 R D2 R2 D B F2 D' U2 F L\n",
    "    BBR\n",
    "    BUD\n",
    "    FRR\n",
    "LUU LUB UFU FLD\n",
    "LLF UFD LRB RBU\n",
    "DDD LFF RFB URB\n",
    "    FRD\n",
    "    BDL\n",
    "    RDL\n",
];

/// The same of the 5x5x5.
pub(crate) const NET_555: [&str; 16] = [
    "L Bw2 D' Rw' L Fw2 Bw2 Rw2 F2 Rw' D L2 U' Rw U Fw2 L2 Dw' B2 R2 Dw' Lw B2 L Dw B2 Bw' R Uw Dw2 Bw' \
    U' L' D B' Rw' L Bw2 R2 U L2 U R' U' Rw D Bw Uw2 B2 R2 Lw F2 Bw2 L2 Lw' F' U F L2 Bw\n",
    "      ULFBR\n",
    "      RUFFD\n",
    "      RBULB\n",
    "      BUDFD\n",
    "      FBUFL\n",
    "BDDLD RRLRB DRLFU FLRFR\n",
    "DFRRU RBULB DUDDR FBRLF\n",
    "RBLLD FUFFB RBRFF URBLU\n",
    "RDURF URFBD LDDUL DBRRU\n",
    "LBBBL BUUFD RBFBL FULUF\n",
    "      UFBLB\n",
    "      UFBLU\n",
    "      DLDUL\n",
    "      DDDLR\n",
    "      ULDLD\n",
];

/// The same of the 6x6x6.
pub(crate) const NET_666: [&str; 19] = [
    "Lw Dw2 B' U' R Uw2 R2 Bw2 Rw2 D' Lw Dw2 3Rw' F 3Uw D2 Lw2 B' Dw2 Rw2 Fw' R 3Rw2 U 3Rw B2 D' F U 3Fw2 \
    3Rw' Fw' B' 3Uw Dw' 3Rw' B Dw2 R2 Bw Rw2 Fw 3Fw' B' Dw 3Rw L Bw2 L2 Fw2 B D2 Bw2 Dw2 3Rw' U' D Fw \
    Dw2 L 3Fw U Bw' D' Bw R2 Lw2 D' Bw D Rw L Fw B2 3Uw B' R' Lw B Dw\n",
    "       FBDLLU\n",
    "       FDDURU\n",
    "       FDLDFB\n",
    "       FUDBDF\n",
    "       RBFFLL\n",
    "       BRDRLD\n",
    "DLLRUL UFFBBL BUUDRF RDFFRL\n",
    "FUFDDR FURUDL DBLRFR BUDLRU\n",
    "FRBFRU LLLFUB URDFUR UFURFR\n",
    "DBFBBB DRRUBD LLUURL BBRLFR\n",
    "ULUBFD RRBUFU BBLRLU FDBDRB\n",
    "BRDUFU BFBFLD FDUBDL UDRDBR\n",
    "       RDLUUR\n",
    "       LBLLLB\n",
    "       BURLLL\n",
    "       RDDBDR\n",
    "       DFFBUB\n",
    "       DLLUFF\n",
];

/// The same of the 7x7x7.
pub(crate) const NET_777: [&str; 22] = [
    "R Fw2 3Uw' 3Rw' Dw 3Bw2 3Dw2 3Lw2 U2 B' R 3Dw2 R' B 3Uw B2 Bw2 3Dw' F2 3Lw2 Fw' 3Lw F2 Fw Lw 3Dw2 \
    3Lw' 3Fw R 3Bw2 Rw' Lw' Bw' 3Dw Rw' U' 3Fw 3Lw2 U2 F U2 3Fw 3Lw' Bw' 3Dw Lw D B2 3Rw2 Bw2 3Lw U2 Uw2 \
    Bw2 D' R' 3Rw 3Uw L2 D 3Rw L 3Bw' Uw' Lw F2 Dw2 3Lw' Bw 3Lw F R Uw B2 Uw Bw' L' F 3Uw 3Bw 3Dw R' Fw' \
    Dw Lw F Lw2 3Lw' Fw' 3Uw D' Dw2 Rw' 3Uw2 3Fw' 3Lw' 3Bw2 Dw 3Fw Lw\n",
    "        DFBLBLD\n",
    "        BFFDRBL\n",
    "        RDFBRBL\n",
    "        LFDURLU\n",
    "        BULLFBD\n",
    "        FUURFUU\n",
    "        FRBBDUR\n",
    "FLUBRDR UDLDRFD BBBBDUF LDRULUR\n",
    "ULRDDDU BBFBBDD FURBUBR BRLDFLR\n",
    "LFULBDU FURDLUR FRUFBBF LUBRRUU\n",
    "UULLUBB RRBFDUD LLRRFRF DBFBBFR\n",
    "BDUDURR FDDULBU LLRUBRL DRFLDBU\n",
    "UDLFLRD BLDLBFF RRLFDUR BFLULFR\n",
    "UDDFFLL ULBLDFL DLFURLB RLFDFDB\n",
    "        FFUFBRB\n",
    "        DLRLLBB\n",
    "        UDDULBL\n",
    "        RDRDBRF\n",
    "        RUDFFFU\n",
    "        RDFUFRF\n",
    "        LBDRDUU\n",
];
