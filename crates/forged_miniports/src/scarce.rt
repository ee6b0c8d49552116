//! The source of kind `scarce`: examples/scarce.asm.

/// The text.
pub const SCARCE: &[u8] = b"\
# Kind scarce: a miniport of NDIS 5.0 that has no resources for the first packet that it is handed, nor for each
# fourth from there on, and says a millisecond later that it has them again.
#
# Handlers and functions are called as stdcall: their words stand on the stack behind the return
# address, the first at the lowest address, and they take them off. EAX has what they answer.
# An adapter's context is a block of 128 bytes: the adapter's handle at 0, how many packets it was
# handed at 4, a byte for NdisMCancelTimer at 8, and its timer (NDIS_MINIPORT_TIMER) from 16 on.

# What NdisMRegisterMiniport is told: NDIS50_MINIPORT_CHARACTERISTICS of the DDK's ndis.h, 96 bytes.
# Each word is a handler's address; 0 is none.
characteristics:
# the version: major 5 and minor 0
dd 5
# reserved
dd 0
# CheckForHang, DisableInterrupt, EnableInterrupt
dd 0
dd 0
dd 0
# Halt
dd halt
# HandleInterrupt
dd 0
# Initialize
dd initialize
# Isr
dd 0
# QueryInformation
dd query_information
# Reconfigure
dd 0
# Reset
dd reset
# Send
dd send
# SetInformation
dd set_information
# TransferData, ReturnPacket
dd 0
dd 0
# SendPackets
dd 0
# AllocateComplete, and six handlers that connection-oriented miniports have
dd 0
dd 0
dd 0
dd 0
dd 0
dd 0
dd 0

# The handle of the wrapper.
wrapper:
dd 0

# DriverEntry(driver object, registry path)
start:
# NdisInitializeWrapper(&wrapper, driver object, registry path, 0)
    mov eax, dword [esp+4]
    mov ecx, dword [esp+8]
    push 0
    push ecx
    push eax
    push wrapper
    call @NdisInitializeWrapper
# NdisMRegisterMiniport(wrapper, &characteristics, 96), whose status is DriverEntry's
    push 96
    push characteristics
    push dword [wrapper]
    call @NdisMRegisterMiniport
    ret 8

# MiniportInitialize(open error, medium index, medium array, count, adapter handle, configuration)
initialize:
# the medium is the first of the array, which has 802.3 alone
    mov eax, dword [esp+8]
    mov dword [eax], 0
# NdisAllocateMemoryWithTag(&block, 128, tag), with the block's address in a word of the stack
    push ebx
    push 0
    mov eax, esp
    push 0x63726163
    push 128
    push eax
    call @NdisAllocateMemoryWithTag
    pop ebx
    test eax, eax
    jne initialize_is_answered
    mov eax, dword [esp+24]
    mov dword [ebx], eax
    mov dword [ebx+4], 0
# NdisMSetAttributesEx(adapter handle, block, 0 seconds, 0, NdisInterfaceIsa)
    push 1
    push 0
    push 0
    push ebx
    push eax
    call @NdisMSetAttributesEx
# NdisMInitializeTimer(timer, adapter handle, function, block)
    lea eax, dword [ebx+16]
    push ebx
    push resources_are_there
    push dword [ebx]
    push eax
    call @NdisMInitializeTimer
# NDIS_STATUS_SUCCESS
    xor eax, eax
initialize_is_answered:
    pop ebx
    ret 24

# MiniportSend(block, packet, flags)
send:
    mov ecx, dword [esp+4]
    mov eax, dword [ecx+4]
    inc dword [ecx+4]
    and eax, 3
    jne packet_is_sent
# NdisSetTimer(timer, 1 millisecond)
    add ecx, 16
    push 1
    push ecx
    call @NdisSetTimer
# NDIS_STATUS_RESOURCES
    mov eax, 0xC000009A
    ret 12
packet_is_sent:
# NDIS_STATUS_SUCCESS
    xor eax, eax
    ret 12

# The timer's function(system's words and the block between: 0, block, 0, 0)
resources_are_there:
# NdisMSendResourcesAvailable(adapter handle)
    mov eax, dword [esp+8]
    push dword [eax]
    call @NdisMSendResourcesAvailable
    ret 16

# MiniportQueryInformation(context, OID, buffer, length, &written, &needed)
query_information:
# NDIS_STATUS_INVALID_OID, but for OID_GEN_MAXIMUM_FRAME_SIZE
    mov eax, 0xC0010017
    cmp dword [esp+8], 0x00010106
    jne query_is_answered
# NDIS_STATUS_INVALID_LENGTH where there is no room for its 4 bytes
    mov eax, 0xC0010014
    mov ecx, dword [esp+24]
    mov dword [ecx], 4
    cmp dword [esp+16], 4
    jb query_is_answered
# 1,500, of 4 bytes
    mov ecx, dword [esp+12]
    mov dword [ecx], 1500
    mov ecx, dword [esp+20]
    mov dword [ecx], 4
    xor eax, eax
query_is_answered:
    ret 24

# MiniportSetInformation(context, OID, buffer, length, &read, &needed): all was read
set_information:
    mov eax, dword [esp+16]
    mov ecx, dword [esp+20]
    mov dword [ecx], eax
# NDIS_STATUS_SUCCESS
    xor eax, eax
    ret 24

# MiniportReset(&addressing reset, context): there is nothing to reset
reset:
    mov eax, dword [esp+4]
    mov byte [eax], 0
# NDIS_STATUS_SUCCESS
    xor eax, eax
    ret 8

# MiniportHalt(block)
halt:
    push ebx
    mov ebx, dword [esp+8]
# NdisMCancelTimer(timer, &cancelled)
    lea eax, dword [ebx+16]
    lea ecx, dword [ebx+8]
    push ecx
    push eax
    call @NdisMCancelTimer
# NdisFreeMemory(block, 128, 0)
    push 0
    push 128
    push ebx
    call @NdisFreeMemory
    pop ebx
    ret 4
";
