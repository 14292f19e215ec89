//! A sheet of a group of every event, as `scramble sheet` printed it.

use std::alloc::{AllocError, Global};

/// Its first scramble.
pub(crate) const FIRST: &str =
    "(-2,3) / (2,2) / (-5,4) / (2,2) / (1,1) / (-1,-1) / (-2,1) / (-1,-1) / (-3,0) / (0,3) / (1,-5) / (0,3) / (-1,-4) / \
(-3,-2) / (3,3) / (5,4) / (2,0) / (0,-2) / (4,4)";

/// Its rounds, of one group each.
const ROUNDS: [&str; 13] = [
    "Round 1: Square-1, at least 2\n\
Group A\n\
1. (-2,3) / (2,2) / (-5,4) / (2,2) / (1,1) / (-1,-1) / (-2,1) / (-1,-1) / (-3,0) / (0,3) / (1,-5) / (0,3) / (-1,-4) \
/ (-3,-2) / (3,3) / (5,4) / (2,0) / (0,-2) / (4,4)\n\
2. (1,0) / (2,2) / (-2,-5) / (2,2) / (-2,-5) / (-1,-1) / (-2,1) / (-1,-1) / (1,-5) / (-1,-4) / (-2,-5) / (-1,2) / \
(-2,0) / (0,-3) / (5,4) / (2,-3) / (4,0) / (-2,0) / (6,0) / (6,0) /\n\
3. (-2,3) / (2,2) / (-5,-2) / (2,2) / (-2,-5) / (-1,-1) / (-3,0) / (1,-2) / (-1,-4) / (-3,6) / (-2,4) / (-1,5) / \
(0,1) / (0,-3) / (4,-1) / (0,2) / (5,6) / (0,3) / (-2,4) / (6,0) / (6,0) /\n\
4. (1,-3) / (2,2) / (-2,4) / (-1,-1) / (-2,-5) / (-1,-1) / (-2,4) / (-1,-1) / (1,-2) / (-1,-4) / (1,4) / (0,-3) / \
(-3,6) / (-1,5) / (1,-3) / (0,-3) / (5,-2) / (0,-2) / (-5,2) / (6,0) / (6,0) /\n\
5. (4,3) / (2,2) / (-5,4) / (2,2) / (-2,-2) / (-1,-1) / (-3,6) / (1,4) / (-4,-1) / (-2,1) / (-4,2) / (-3,6) / (1,0) \
/ (3,6) / (4,-1) / (0,4) / (0,-2) / (3,2) / (-3,5) / (6,0) / (6,0) /\n\
E1. (4,-3) / (2,2) / (-5,-2) / (2,2) / (-2,-5) / (-1,-1) / (-3,6) / (0,-3) / (1,-2) / (-1,-4) / (-2,0) / (0,-3) / \
(5,-2) / (2,0) / (6,0) / (6,0) / (6,0) /\n\
E2. (-2,3) / (2,2) / (-2,1) / (2,2) / (-2,1) / (2,2) / (1,1) / (-1,-1) / (-2,1) / (-1,-1) / (0,-3) / (1,4) / (-1,2) \
/ (-2,3) / (3,6) / (4,-1) / (0,4) / (0,-4) / (2,0)\n\
\n",
    "Round 2: 2x2x2 Cube, at least 4\n\
Group A\n\
1. R F R2 F' U2 R F U\n\
2. U R2 F' R F' R U F2 R' U2\n\
3. R2 F2 R U' R' U' F2 U2 F' U'\n\
4. F' U2 F R2 F' U F2\n\
5. R' F' U2 F' U2 F\n\
E1. R' F U2 R' F R' U F' R' U'\n\
E2. U' R F U2 F R2 F2\n\
\n",
    "Round 3: 3x3x3 Cube, at least 2\n\
Group A\n\
1. L2 R2 D2 R2 F2 U2 B2 D2 U2 R2 U2 D' L2 R2 F2 U B2 U' B2 R2 L' B2 F2 D U2 L2 U' L' B F' L' D\n\
2. L2 R2 F2 D2 R2 U' R2 B2 U2 F2 R' B' U F' D2 R' U2 L2 U' F\n\
3. L2 B2 L2 D2 B2 U2 R2 U2 R2 U2 D' R2 U F2 L2 R2 U' F2 U' R' D L2 U' L2 R2 F' D' L2 R\n\
4. R2 B2 L2 U2 L2 U2 F2 D2 F2 R2 U2 R2 D' B2 U' F2 U F2 U' F2 R2 U2 L' D' U2 R' B2 L' D2 U B' D B' F' R'\n\
5. B2 D2 F2 R2 F2 U2 R2 D2 L2 F2 D' B2 U' F2 U2 L2 U' R2 U R2 U' L' U2 R D U' R U' F R B' F' U'\n\
E1. R2 F2 L2 U2 F2 U2 R2 D2 F2 L2 U2 D' B2 U2 L2 U' R2 U2 F2 U' L B2 F2 R' D' F2 R F D B' R' U'\n\
E2. L2 D2 R2 D2 B2 R2 F2 U2 B2 U' F2 U F2 U' B2 U B2 U R' F2 D' F2 D L F2 R2 F' R' F2 U'\n\
\n",
    "Round 4: 3x3x3 One-Handed, at least 2\n\
Group A\n\
1. L2 D F2 R2 U R2 U' L2 F2 D L F' R' U' B F2 L' R' D U\n\
2. L2 F2 D' F2 L2 D' L2 D2 B2 F2 L' F' R U' B L' U2 F' L U2 R'\n\
3. F2 L2 D2 L2 D' B2 U L2 U' B2 F' D' L' B L U R' B2 R2 F U'\n\
4. D2 R2 D2 R2 F2 R2 F2 R2 U2 F2 U2 D' L2 U' L2 U L2 U' B2 U2 R' B2 U' R D2 U' L' R' F' D' R2 U'\n\
5. L2 F2 U F2 D' U2 B2 D L2 U2 R' U' F L2 D F2 D R2 U L' U'\n\
E1. U' R2 B2 R2 D' F2 R2 U' L2 U' L F' D2 R2 D F2 R2 U2 L F\n\
E2. F2 D2 R2 U2 F2 L2 F2 L2 D2 F2 D' F2 U' R2 B2 F2 U R2 U R' D2 U2 F2 R' D' U F' D2 R B'\n\
\n",
    "Round 5: 3x3x3 Blindfolded, at least 2\n\
Group A\n\
1. U2 F2 R2 D2 U L2 U L2 B2 R2 F' L B R F' U2 L' R' D B U' Uw\n\
2. D2 B2 F2 U' R2 D L2 U2 B2 R2 F L B U' B U R' F' D' F Fw\n\
3. D U2 F2 R2 D' B2 F2 U R2 D' F U' R F' U L U F R F2 Fw Uw2\n\
E1. D2 R2 B2 D2 L2 U2 F2 U L2 U B2 U2 R2 U' F2 U' R2 L' U R2 B2 D' F2 L' U2 B' L2 R F L Fw' Uw2\n\
E2. D2 B2 U2 B2 R2 F2 R2 U2 F2 D2 F2 U2 D' B2 F2 R2 U' L2 R' U' B2 F2 R U' R' F2 B' L' R2 F Uw\n\
\n",
    "Round 6: 3x3x3 Fewest Moves, at least 2\n\
Group A\n\
1. R' U' F R2 U2 L2 U2 R2 B2 L2 B2 R2 U F2 U B2 R2 U F2 U' R2 U R' B2 U' R' U' B2 R' U2 B' L D R' F' R' U' F\n\
2. R' U' F R2 U' R2 U2 R2 D2 B2 L2 D' R' B2 U F' L2 B' L2 D B2 L' U2 R' U' F\n\
3. R' U' F B2 U B2 D' F2 D L2 U' F2 D2 R' U' R' D' B L' R B D' L U' R' U' F\n\
E1. R' U' F B2 D2 R2 B2 F2 U2 L2 R2 F2 U2 R2 U2 D' F2 U' L2 U R2 U' F2 U R2 L' U' L' D R' B2 F2 D2 U' F' D B' F' R' \
U' F\n\
E2. R' U' F D' U2 B2 R2 F2 R2 D' L2 B2 D L' F U L2 F L R' D U F R' U' F\n\
\n",
    "Round 7: 5x5x5 Cube, random moves\n\
Group A\n\
1. B Lw' U' B R2 B' Bw2 L2 U L2 Bw L U Lw2 F Fw2 Lw2 F' B2 Lw' Bw2 U2 Bw2 D' Rw2 D' Fw' L' U' L B' U L U R2 U2 R' L \
Fw2 U2 Uw2 Bw2 U' D' R Bw D2 Bw U Bw2 L B D2 Rw' D B' D L Fw Uw\n\
2. Lw Bw Uw D' Fw2 B' L U L2 Dw F' Bw' U2 Uw' Fw2 Rw Dw Bw' Rw' Fw2 Uw' R B' Bw L Lw' Fw' R' D' B Dw2 L2 Uw F' L' \
B' Dw L2 Bw' R' Fw' Dw Fw' D2 Lw' U2 B Dw Rw2 D' R' L2 Dw' Fw Lw2 U' Bw2 Lw Bw L'\n\
3. B2 L2 Dw' F2 Bw' R2 Bw Uw' Fw2 R' Dw' L' Dw' F' D' Lw D2 F2 Lw U' Rw' Lw' Uw' Rw' L2 B U2 Lw2 U Uw' Bw R' L2 Dw \
L2 Uw2 Dw Rw D' Lw F Bw Rw' B2 Rw2 Lw' F Dw B' U Dw B' Rw2 Uw' Dw2 F' Lw Bw2 Uw' F2\n\
4. Rw2 F2 Dw2 L' U Fw B' L' Bw2 Uw2 B' Rw' D' Lw Uw' R Bw2 L2 U Dw' R' D L2 Uw' D' F2 Lw Bw' D' Lw' U2 Lw Uw' F D2 \
Dw Rw' U2 Uw2 Dw' Fw R2 Uw' L Uw Dw2 L2 B2 L' U2 Dw2 B2 D L2 Bw2 Uw' Dw2 Lw D B'\n\
5. F2 L' Bw' Lw' Uw2 Dw' Bw Dw' Lw Dw' R2 D' L2 B' R2 Fw2 R Lw' Bw Rw2 Bw2 U F2 R Rw2 D' R Dw L' Lw2 Bw2 L2 D2 Lw' \
Uw2 Dw2 R2 F Dw' F' Fw2 Dw Rw Uw2 L Bw2 U2 Uw2 R F' B Lw' F L D' B Bw' U2 B Bw\n\
E1. Dw2 R Fw L2 Lw' Uw R L' F' Lw Bw2 U2 Fw2 B' Uw2 Bw2 R2 D' B Bw2 U2 L' B Uw' Lw' Fw U2 F' Dw2 Fw2 Bw Uw2 Rw2 L2 \
Fw R' L' Fw2 Bw' Uw' Bw2 Dw2 Fw2 B2 Bw2 Lw2 D2 Lw2 Dw2 L2 Bw' L' Bw' L2 U Uw' Lw2 Uw2 D' Lw2\n\
E2. Lw2 Fw Dw2 L' F2 B' Bw' Uw' F B' Dw' Lw' D L Uw' D' Bw Rw Bw2 D' Rw' Lw' F' L' B2 Dw Lw2 D Dw L' Dw Bw2 R2 Lw' \
Fw' L B2 Rw F2 Lw U' D' Lw2 U2 L' Bw2 Lw' F2 B' U' Rw D' F B2 L' F D2 R2 Bw2 U2\n\
\n",
    "Round 8: 6x6x6 Cube, random moves\n\
Group A\n\
1. R' B' U2 3Rw' U' L2 U2 3Fw' Bw Uw2 Dw F2 3Fw L2 Lw2 B2 Rw U' L Uw' Rw' Dw F Fw2 3Fw B' R2 B' Rw Bw Rw D Dw' Bw \
D' Dw2 L2 F L' D2 L2 B' D B' U Lw' Bw2 D2 3Fw' L2 Bw 3Uw 3Fw Bw U2 3Fw Bw2 R' D' Dw B Dw2 B2 Uw F' 3Rw' Dw2 R' Uw' \
Fw' 3Fw2 Uw' L F2 U 3Rw' F Dw' Lw F2\n\
2. B2 Bw' Lw' Bw' Dw Rw Lw' Fw2 D2 3Fw Dw' Fw D Lw2 Uw2 Rw 3Rw D2 Fw2 B R2 3Rw U2 Uw R' Rw 3Rw U 3Rw2 U2 Bw' Uw R' \
L 3Uw 3Fw2 Bw' Rw' Lw2 D2 Bw2 L' Uw' Lw2 D Fw' R2 Rw' Dw' L Bw D 3Fw Rw' 3Uw' Fw Lw2 Bw2 Uw2 3Uw Lw' Dw 3Rw2 Fw' \
3Fw2 3Rw L' F' 3Uw2 Bw R2 Dw Rw 3Uw2 Rw' U R 3Fw' L' 3Uw2\n\
3. F' R' U2 3Rw U' Uw2 Fw Dw' L2 B U R 3Fw' R' F2 Uw' L2 D Bw2 3Rw F2 U' Fw Rw' F2 L U2 D' Fw' Uw' Bw Uw Bw' Uw2 \
3Uw Rw2 Bw L' B2 L' U2 B' Lw2 B R2 Lw2 Bw Uw2 Fw' 3Uw' R' L2 Lw2 F' 3Fw2 B R 3Rw2 Lw' B Dw' B2 Uw 3Rw U2 Lw' Dw' \
3Rw U' D2 Fw 3Uw' 3Fw2 D Fw Lw Dw2 Lw2 D2 B2\n\
E1. U2 3Uw F' 3Rw2 Dw2 Bw' R Fw' U Rw2 3Rw' 3Fw' U' 3Rw' 3Fw2 L2 Fw2 Lw Dw' Bw 3Uw B Dw2 Rw U' D R Fw2 Bw' 3Uw 3Fw2 \
R Fw R2 Uw2 Dw' Bw2 R Uw Lw2 U2 L' Lw' Uw Fw Dw2 F Bw Rw' Lw2 Dw2 L Bw2 3Rw2 L' D' F2 D Fw' Bw R Bw' 3Uw2 B' 3Rw \
Fw' R2 Lw U' L' Uw L U2 3Rw Dw2 L 3Fw2 D Lw2 3Fw\n\
E2. Dw' Lw' D Lw Fw2 Uw2 B 3Uw' 3Fw' Lw2 Uw2 R2 Dw2 L Fw' Bw' 3Uw Fw R2 Dw' L2 Dw2 3Rw2 Bw2 U2 3Rw2 Bw2 L2 B Uw2 R \
F' Uw2 Fw Uw R2 3Rw2 Dw Rw' Lw2 F2 3Rw2 3Uw2 L2 D' Bw' Lw' F Uw2 F' 3Rw2 B 3Uw 3Rw L' F' Dw F2 Rw' Bw Dw Lw2 B' R2 \
Rw' U' Bw 3Uw' Dw' 3Fw' D B' L Lw2 3Fw2 L2 Uw' F2 Bw Dw'\n\
\n",
    "Round 9: 7x7x7 Cube, random moves\n\
Group A\n\
1. U2 Rw Bw Uw2 3Bw2 Lw D' B 3Uw' R' 3Dw F' U' 3Dw2 Rw' 3Bw2 Dw2 3Dw2 L Uw' 3Uw' D2 Lw2 3Fw' Rw2 3Bw2 3Lw' F' 3Bw2 \
Lw' F' 3Lw Uw 3Dw2 Fw R U Uw' 3Fw 3Bw' 3Rw' 3Dw' L' B2 3Dw L' B2 D' Lw Uw' L2 Lw2 F L' Uw' Rw 3Rw' F2 R2 3Rw Bw' D' \
3Dw2 3Lw 3Uw' 3Bw Dw 3Rw' B2 Bw2 Rw Dw' R Fw Rw2 3Rw' Uw' Rw' 3Bw' 3Lw2 F2 D2 3Rw Bw2 D 3Dw 3Lw2 Uw' 3Uw' Bw 3Lw' \
3Fw2 3Dw Rw' Fw' B2 3Bw' L Fw' B\n\
2. B2 3Uw F2 Bw' Dw' 3Rw F D' R 3Rw2 3Bw Rw' L2 D2 R' 3Lw 3Uw2 3Fw2 Uw' Rw 3Bw' U2 Lw' Dw2 Bw Uw2 3Dw 3Lw2 B 3Rw2 \
Dw' L 3Bw2 L2 B 3Lw 3Bw 3Rw2 Fw 3Fw U D' Rw B2 3Uw' 3Fw2 L D' 3Dw' R2 Fw' 3Lw Bw2 Uw Bw Lw2 Fw2 3Lw D2 Fw2 Dw2 Lw' \
F2 Bw2 Rw' 3Dw' R' 3Dw 3Lw Uw R' F Dw Fw' D Lw 3Fw' 3Lw' Fw U Lw2 3Lw 3Bw U Lw F2 Dw2 L D' L' Lw2 3Uw2 Rw' B2 3Uw2 \
3Bw2 3Dw 3Lw 3Fw2 Dw2\n\
3. R' 3Uw D2 L Dw2 L' Dw' Rw F' U F' 3Fw' D' B2 R Dw' 3Fw' 3Lw' B Lw 3Dw' R2 3Bw' Lw2 Uw2 F2 U' 3Dw' Rw2 Bw' Dw' R' \
L2 3Fw' Rw' U 3Fw' 3Dw2 Fw' Uw L2 3Uw' F 3Bw2 Lw' 3Lw2 Dw2 Fw' 3Bw 3Dw Bw' Uw 3Bw 3Uw2 Rw' 3Dw R Rw2 Uw 3Lw2 Bw U \
Bw2 Rw2 3Rw 3Fw' Lw' Bw' Lw2 Dw2 3Lw2 D2 Bw' Dw' 3Dw' 3Rw' 3Lw U L' Fw' 3Dw2 Lw U 3Lw 3Uw' 3Dw 3Rw2 Dw' 3Dw2 B L \
3Dw2 3Bw' 3Lw' 3Uw2 R 3Lw F' Fw' 3Rw2\n\
E1. B2 R2 3Bw 3Uw' Dw Rw2 B2 Bw 3Rw2 Fw' 3Lw2 F2 3Uw' Lw Uw2 Lw2 3Uw' B' U' 3Rw' Dw' B2 Uw2 F2 Bw Rw2 3Bw2 Lw2 3Dw \
Rw Dw2 3Rw' Lw 3Bw' Rw Uw Lw' D L Dw2 3Fw' R' 3Dw2 B2 3Bw U2 3Bw2 3Uw' Dw' 3Bw U2 Rw2 Fw' R2 3Bw' U' 3Rw' Dw2 L' Uw \
3Bw2 L' U 3Bw2 R2 3Lw 3Uw Fw2 Uw' Fw 3Uw 3Dw2 B' Uw2 F' Rw2 Fw2 Dw Fw Uw2 Dw' 3Lw 3Fw Dw2 3Lw2 B' L' Uw' L B2 L2 \
3Dw B' L2 Lw2 F Fw L 3Bw2 3Uw\n\
E2. F 3Bw 3Dw 3Rw' Bw' D2 Rw' L' 3Bw L2 3Lw2 3Bw L' F' 3Fw Bw Rw' Bw' Lw2 Bw' U' 3Fw2 Bw2 L2 3Bw' R 3Bw2 3Dw2 R B \
Bw2 3Lw Dw' 3Bw U' Fw' B' 3Lw' Fw 3Bw2 D Rw F' 3Rw' 3Fw Bw Dw2 R' Lw D 3Dw2 L2 F' Lw D Rw F' Dw2 Bw2 U 3Lw D 3Fw \
3Rw' L2 B' U B2 Lw' Dw 3Rw' 3Lw' Fw2 Uw R' 3Rw Bw2 L' D2 B 3Dw2 3Rw 3Bw2 L2 Dw 3Fw' Rw2 D 3Dw 3Bw R' U2 F B' 3Bw \
Rw' Lw' 3Bw' Rw Uw\n\
\n",
    "Round 10: Clock, at least 2\n\
Group A\n\
1. UR4+ DR6+ DL1+ UL5- U6+ R3+ D2- L2- ALL0+ y2 U0+ R4- D4- L3- ALL4-\n\
2. UR1+ DR0+ DL5+ UL0+ U0+ R2- D1+ L2+ ALL1- y2 U2- R4+ D1- L6+ ALL6+\n\
3. UR1+ DR2+ DL1- UL5- U4+ R3+ D3+ L0+ ALL4- y2 U2+ R3- D2- L5- ALL5+\n\
4. UR4+ DR3+ DL6+ UL4- U1+ R5- D5- L1+ ALL5- y2 U5+ R5+ D0+ L4- ALL5+\n\
5. UR4- DR0+ DL2+ UL1+ U5- R4+ D3+ L1+ ALL3+ y2 U1- R0+ D5+ L5- ALL1-\n\
E1. UR3- DR0+ DL3- UL5- U3+ R5- D4+ L2+ ALL1+ y2 U5- R3+ D1- L3- ALL5-\n\
E2. UR3- DR4- DL2- UL4+ U1+ R1+ D1+ L3- ALL3- y2 U1+ R3+ D5- L3+ ALL5+\n\
\n",
    "Round 11: Megaminx, random moves\n\
Group A\n\
1. R-- D-- R-- D-- R-- D++ R++ D-- R-- D-- U' R-- D-- R++ D++ R++ D++ R++ D++ R-- D-- U' R-- D-- R-- D++ R++ D-- \
R++ D++ R-- D-- U' R-- D++ R++ D-- R-- D-- R-- D++ R++ D-- U' R-- D-- R-- D++ R++ D-- R-- D-- R++ D++ U R-- D-- R-- \
D-- R-- D-- R-- D++ R++ D-- U' R-- D-- R-- D-- R-- D-- R-- D-- R-- D-- U'\n\
2. R++ D++ R++ D++ R-- D++ R-- D-- R++ D-- U' R++ D++ R-- D++ R-- D-- R-- D++ R++ D++ U R-- D-- R-- D-- R-- D++ R++ \
D-- R++ D-- U' R-- D++ R-- D-- R++ D-- R++ D-- R++ D-- U' R-- D++ R-- D++ R++ D++ R-- D++ R-- D++ U R++ D-- R-- D-- \
R++ D-- R-- D++ R++ D-- U' R++ D++ R-- D-- R-- D-- R-- D-- R++ D-- U'\n\
3. R++ D-- R++ D-- R-- D++ R++ D-- R++ D++ U R-- D++ R-- D-- R++ D++ R++ D++ R++ D++ U R-- D++ R++ D++ R++ D-- R-- \
D-- R++ D-- U' R++ D++ R-- D-- R-- D-- R-- D++ R-- D-- U' R-- D-- R-- D++ R++ D-- R++ D-- R-- D-- U' R++ D++ R-- \
D++ R-- D-- R-- D++ R-- D++ U R++ D-- R-- D++ R++ D++ R++ D-- R-- D-- U'\n\
4. R++ D++ R-- D++ R-- D++ R-- D-- R-- D++ U R++ D++ R-- D-- R-- D-- R++ D-- R-- D++ U R++ D++ R++ D++ R-- D++ R++ \
D++ R++ D++ U R++ D++ R-- D++ R-- D-- R-- D-- R-- D-- U' R-- D++ R++ D-- R-- D++ R-- D-- R-- D-- U' R++ D++ R-- D-- \
R++ D++ R-- D++ R++ D-- U' R++ D-- R++ D-- R++ D-- R-- D-- R++ D++ U\n\
5. R-- D-- R-- D++ R++ D++ R++ D++ R-- D++ U R-- D-- R-- D++ R-- D-- R-- D++ R-- D++ U R-- D-- R-- D-- R-- D-- R++ \
D-- R++ D++ U R++ D++ R-- D-- R++ D-- R++ D-- R++ D-- U' R-- D-- R-- D++ R++ D-- R++ D-- R-- D-- U' R-- D++ R++ D++ \
R-- D++ R++ D-- R++ D-- U' R-- D-- R++ D-- R++ D++ R++ D-- R++ D++ U\n\
E1. R-- D-- R-- D-- R++ D-- R++ D++ R++ D++ U R-- D++ R++ D++ R++ D-- R++ D-- R-- D++ U R-- D-- R-- D++ R-- D++ R++ \
D++ R-- D-- U' R++ D++ R-- D-- R++ D-- R++ D-- R-- D-- U' R++ D++ R-- D++ R++ D++ R++ D-- R-- D-- U' R-- D++ R++ \
D-- R-- D++ R++ D++ R++ D-- U' R++ D-- R++ D++ R++ D-- R-- D++ R-- D-- U'\n\
E2. R++ D-- R++ D++ R-- D-- R++ D-- R++ D++ U R-- D++ R-- D-- R++ D-- R-- D-- R-- D-- U' R++ D-- R++ D++ R++ D-- \
R-- D-- R-- D-- U' R-- D++ R-- D-- R-- D++ R-- D-- R++ D-- U' R-- D++ R++ D++ R++ D-- R++ D-- R++ D++ U R-- D-- R-- \
D-- R-- D-- R-- D-- R-- D-- U' R++ D++ R-- D-- R++ D-- R-- D++ R-- D-- U'\n\
\n",
    "Round 12: Pyraminx, at least 6\n\
Group A\n\
1. R B' L' B' L' R' L' U u l r\n\
2. R U L B U' B' L R u' l b\n\
3. B' R L B L B' R' L' l\n\
4. B L' B U' L' R' L U' u l' r' b\n\
5. R B' U' L' U' R B R' l' r b'\n\
E1. L R' L' B R L' U' L' U' u' l' r' b\n\
E2. U R' L R' L U R' L u' r' b'\n\
\n",
    "Round 13: Skewb, at least 7\n\
Group A\n\
1. B' U' L B' R B' R L\n\
2. B R L' U' R U' B' U'\n\
3. B' U' L U' B L U B' U'\n\
4. R' L B U' R' U L B L'\n\
5. R' L B U R U L' U\n\
E1. B' R' U R' L U' L U' L'\n\
E2. U B R U R L' U R\n\
\n",
];

/// The text of so many of its rounds, behind so many.
pub(crate) fn sheet(alloc: Global, first: usize, count: usize) -> Result<String, AllocError> {
    let mut text = String::new(alloc);
    for round in ROUNDS.iter().skip(first).take(count) {
        text.push_str(round)?;
    }
    Ok(text)
}
